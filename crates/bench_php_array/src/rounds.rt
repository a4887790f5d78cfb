// What is measured.
use php_array::Entries;
use php_base::Ledger;
use php_value::{Key, Text};
use std::alloc::{Alloc, Global};
use std::io;
use std::time::{Clock, Instant};

/// Nanoseconds an operation, on arrays with as many entries.
#[derive(Drop)]
pub struct Figures {
    pub entries: u32,
    pub append: u64,
    pub in_order: u64,
    pub random: u64,
    pub overwrite: u64,
    pub front: u64,
    pub back: u64,
    pub anywhere: u64,
    /// Optional values, taken out of a plain vector in the same scattered order.
    pub plain: u64,
    pub iterate: u64,
    pub texts: u64,
    /// The sum of all values that were read, so that no read is left out.
    pub sum: u64,
}

/// A number below `entries`, so that each of them comes once while `turn` goes through them.
fn scattered_place(turn: u32, entries: u32) -> u64 {
    (u64::from(turn) * 7919)
        .checked_rem(u64::from(entries))
        .unwrap_or(0)
}

/// A key among the first `entries`, in the same order.
fn scattered(turn: u32, entries: u32) -> Key {
    Key::Int(i64::try_from(scattered_place(turn, entries)).unwrap_or(0))
}

fn nanoseconds(rt: &impl Clock, start: &Instant) -> io::Result<u64> {
    let time = start.elapsed(rt)?;
    Ok(
        time.as_secs()
            .saturating_mul(1_000_000_000)
            .saturating_add(u64::from(time.subsec_nanos())),
    )
}

fn filled(alloc: Global, entries: u32) -> Entries<u32> {
    let mut ledger = Ledger { made: 0 };
    let mut array = Entries::new(alloc);
    for number in 0..entries {
        let _ = array.append(number, &mut ledger);
    }
    array
}

fn appended(rt: &(impl Clock + Alloc<A = Global>), figures: &mut Figures) -> io::Result<()> {
    let start = Instant::now(rt)?;
    let array = filled(rt.alloc(), figures.entries);
    figures.append = figures.append.saturating_add(nanoseconds(rt, &start)?);
    figures.sum = figures.sum.wrapping_add(array.len() as u64);
    Ok(())
}

fn read(rt: &impl Clock, array: &Entries<u32>, figures: &mut Figures) -> io::Result<()> {
    let start = Instant::now(rt)?;
    for number in 0..figures.entries {
        let value = array.get(&Key::Int(i64::from(number))).copied();
        figures.sum = figures.sum.wrapping_add(u64::from(value.unwrap_or(0)));
    }
    figures.in_order = figures.in_order.saturating_add(nanoseconds(rt, &start)?);
    let start = Instant::now(rt)?;
    for turn in 0..figures.entries {
        let value = array.get(&scattered(turn, figures.entries)).copied();
        figures.sum = figures.sum.wrapping_add(u64::from(value.unwrap_or(0)));
    }
    figures.random = figures.random.saturating_add(nanoseconds(rt, &start)?);
    Ok(())
}

fn overwrite(rt: &impl Clock, array: &mut Entries<u32>, figures: &mut Figures) -> io::Result<()> {
    let mut ledger = Ledger { made: 0 };
    let start = Instant::now(rt)?;
    for number in 0..figures.entries {
        let _ = array.set(Key::Int(i64::from(number)), number, &mut ledger);
    }
    figures.overwrite = figures.overwrite.saturating_add(nanoseconds(rt, &start)?);
    Ok(())
}

fn iterate(rt: &impl Clock, array: &Entries<u32>, figures: &mut Figures) -> io::Result<()> {
    let start = Instant::now(rt)?;
    let mut last = 0;
    for _ in 0..figures.entries {
        if let Some((serial, _, value)) = array.entry_after(last) {
            last = serial;
            figures.sum = figures.sum.wrapping_add(u64::from(*value));
        }
    }
    figures.iterate = figures.iterate.saturating_add(nanoseconds(rt, &start)?);
    Ok(())
}

fn remove(rt: &(impl Clock + Alloc<A = Global>), figures: &mut Figures) -> io::Result<()> {
    let mut array = filled(rt.alloc(), figures.entries);
    let start = Instant::now(rt)?;
    for _ in 0..figures.entries {
        let Some((_, Key::Int(key), _)) = array.entry_after(0) else {
            break;
        };
        let key = Key::Int(*key);
        let _ = array.remove(&key);
    }
    figures.front = figures.front.saturating_add(nanoseconds(rt, &start)?);
    let mut array = filled(rt.alloc(), figures.entries);
    let start = Instant::now(rt)?;
    for _ in 0..figures.entries {
        let _ = array.pop();
    }
    figures.back = figures.back.saturating_add(nanoseconds(rt, &start)?);
    let mut array = filled(rt.alloc(), figures.entries);
    let start = Instant::now(rt)?;
    for turn in 0..figures.entries {
        let _ = array.remove(&scattered(turn, figures.entries));
    }
    figures.anywhere = figures.anywhere.saturating_add(nanoseconds(rt, &start)?);
    Ok(())
}

/// What a scattered order costs by itself.
fn take_plain(rt: &(impl Clock + Alloc<A = Global>), figures: &mut Figures) -> io::Result<()> {
    let mut plain = Vec::new(rt.alloc());
    for number in 0..figures.entries {
        plain.push(Some(number))?;
    }
    let start = Instant::now(rt)?;
    for turn in 0..figures.entries {
        let place = scattered_place(turn, figures.entries) as usize;
        if let Some(element) = plain.get_mut(place) {
            if let Some(value) = element.take() {
                figures.sum = figures.sum.wrapping_add(u64::from(value));
            }
        }
    }
    figures.plain = figures.plain.saturating_add(nanoseconds(rt, &start)?);
    Ok(())
}

fn text_key(alloc: Global, number: u32) -> io::Result<Key> {
    let name = format!(in alloc; "key{number}")?;
    match Text::from_bytes(alloc, name.as_bytes()) {
        Ok(text) => Ok(Key::Str(text)),
        Err(_) => Ok(Key::Str(Text::empty())),
    }
}

fn read_texts(rt: &(impl Clock + Alloc<A = Global>), figures: &mut Figures) -> io::Result<()> {
    let mut ledger = Ledger { made: 0 };
    let mut array = Entries::new(rt.alloc());
    let mut keys = Vec::new(rt.alloc());
    for number in 0..figures.entries {
        let _ = array.set(text_key(rt.alloc(), number)?, number, &mut ledger);
        keys.push(text_key(rt.alloc(), number)?)?;
    }
    let start = Instant::now(rt)?;
    for key in &keys {
        let value = array.get(key).copied();
        figures.sum = figures.sum.wrapping_add(u64::from(value.unwrap_or(0)));
    }
    figures.texts = figures.texts.saturating_add(nanoseconds(rt, &start)?);
    Ok(())
}

fn each(total: u64, entries: u32, rounds: u32) -> u64 {
    total
        .checked_div(u64::from(entries) * u64::from(rounds))
        .unwrap_or(0)
}

/// Measures each operation on arrays of one size, in so many rounds.
pub fn measure(
    rt: &(impl Clock + Alloc<A = Global>),
    entries: u32,
    rounds: u32,
) -> io::Result<Figures> {
    let mut figures = Figures {
        entries,
        append: 0,
        in_order: 0,
        random: 0,
        overwrite: 0,
        front: 0,
        back: 0,
        anywhere: 0,
        plain: 0,
        iterate: 0,
        texts: 0,
        sum: 0,
    };
    for _ in 0..rounds {
        appended(rt, &mut figures)?;
        let mut array = filled(rt.alloc(), entries);
        read(rt, &array, &mut figures)?;
        overwrite(rt, &mut array, &mut figures)?;
        iterate(rt, &array, &mut figures)?;
        remove(rt, &mut figures)?;
        take_plain(rt, &mut figures)?;
        read_texts(rt, &mut figures)?;
    }
    figures.append = each(figures.append, entries, rounds);
    figures.in_order = each(figures.in_order, entries, rounds);
    figures.random = each(figures.random, entries, rounds);
    figures.overwrite = each(figures.overwrite, entries, rounds);
    figures.front = each(figures.front, entries, rounds);
    figures.back = each(figures.back, entries, rounds);
    figures.anywhere = each(figures.anywhere, entries, rounds);
    figures.plain = each(figures.plain, entries, rounds);
    figures.iterate = each(figures.iterate, entries, rounds);
    figures.texts = each(figures.texts, entries, rounds);
    Ok(figures)
}
