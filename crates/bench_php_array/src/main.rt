// Measures ordered arrays: nanoseconds an operation, for arrays of several sizes. Without words on the
// command line it does one small round and prints a fixed line.
#![tactic(auto)]

mod rounds;

use php_value::Key;
use rounds::{Figures, measure};
use std::mem::size_of;
use std::{env, io};

/// About as many operations are measured for each figure.
const OPERATIONS: u32 = 2_000_000;

const SMALL: u32 = 1_000;

const LARGE: u32 = 100_000;

const SIZES: [u32; 3] = [10_000, LARGE, 1_000_000];

fn main(rt: HostRuntime) -> io::Result<()> {
    if env::args(&rt)?.count() < 2 {
        let figures = measure(&rt, 100, 1)?;
        println!(rt; "one round of {} entries", figures.entries)?;
        return Ok(());
    }
    // An entry has a serial and a key, and its value a tag. A map has the key again, the place, the hash
    // and its part of the table.
    let packed = 16 + size_of::<Key>();
    let hashed = packed + size_of::<Key>() + size_of::<usize>() + 16;
    println!(rt;
        "bytes an entry beside the value: {packed} where a key tells its place, else {hashed}"
    )?;
    println!(rt;
        "entries append in_order random overwrite pop_front pop_back pop_random plain_random iterate text_keys"
    )?;
    let small = measure(&rt, SMALL, OPERATIONS / SMALL)?;
    print_figures(&rt, &small)?;
    for entries in SIZES {
        let figures = measure(&rt, entries, OPERATIONS / entries)?;
        print_figures(&rt, &figures)?;
        if entries == LARGE {
            print_ratios(&rt, &small, &figures)?;
        }
    }
    Ok(())
}

/// How many hundredths of one time another is.
fn hundredths(small: u64, large: u64) -> u64 {
    large.saturating_mul(100).checked_div(small).unwrap_or(0)
}

fn print_ratios(rt: &impl Print, small: &Figures, large: &Figures) -> io::Result<()> {
    println!(rt;
        "{LARGE} to {SMALL} in hundredths: append {} overwrite {} pop_front {} pop_back {} pop_random {} plain_random {} iterate {}",
        hundredths(small.append, large.append),
        hundredths(small.overwrite, large.overwrite),
        hundredths(small.front, large.front),
        hundredths(small.back, large.back),
        hundredths(small.anywhere, large.anywhere),
        hundredths(small.plain, large.plain),
        hundredths(small.iterate, large.iterate)
    )
}

fn print_figures(rt: &impl Print, figures: &Figures) -> io::Result<()> {
    println!(rt;
        "{} {} {} {} {} {} {} {} {} {} {}",
        figures.entries,
        figures.append,
        figures.in_order,
        figures.random,
        figures.overwrite,
        figures.front,
        figures.back,
        figures.anywhere,
        figures.plain,
        figures.iterate,
        figures.texts
    )
}
