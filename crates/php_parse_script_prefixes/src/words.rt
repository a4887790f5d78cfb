// The words of a script, and the script with one of them changed.

use std::alloc::{AllocError, Global};

/// A word, and what stands behind it.
#[derive(Drop)]
pub(crate) struct Word {
    text: String,
    ends_line: bool,
}

/// What becomes of a word.
#[derive(Clone, Copy)]
pub(crate) enum Change {
    /// It isn't there.
    Dropped,
    /// It stands twice.
    Doubled,
    /// The next one stands before it.
    Swapped,
}

/// Adds the words of a line.
pub(crate) fn add_line(alloc: Global, words: &mut Vec<Word>, line: &str) -> Result<(), AllocError> {
    for word in line.split(' ') {
        words.push(Word {
            text: format!(in alloc; "{word}")?,
            ends_line: false,
        })?;
    }
    if let Some(mut last) = words.pop() {
        last.ends_line = true;
        words.push(last)?;
    }
    Ok(())
}

fn begun(alloc: Global) -> Result<String, AllocError> {
    format!(in alloc; "<?php\n")
}

fn put_behind(script: &mut String, word: &Word) -> Result<(), AllocError> {
    script.push(if word.ends_line { '\n' } else { ' ' })
}

/// The first words alone.
pub(crate) fn first_words(
    alloc: Global,
    words: &[Word],
    count: usize,
) -> Result<String, AllocError> {
    let mut script = begun(alloc)?;
    for word in words.iter().take(count) {
        script.push_str(word.text.as_str())?;
        put_behind(&mut script, word)?;
    }
    Ok(script)
}

// The word that stands at a place where that at another is exchanged with the next one.
fn swapped_at(at: usize, place: usize) -> usize {
    if place == at {
        return at.saturating_add(1);
    }
    if place == at.saturating_add(1) {
        return at;
    }
    place
}

fn put_text(script: &mut String, words: &[Word], place: usize) -> Result<(), AllocError> {
    match words.get(place) {
        Some(word) => script.push_str(word.text.as_str()),
        None => Ok(()),
    }
}

fn put_changed(
    script: &mut String,
    words: &[Word],
    at: usize,
    place: usize,
    change: Change,
) -> Result<(), AllocError> {
    match change {
        Change::Dropped => {
            if place == at {
                return Ok(());
            }
            put_text(script, words, place)
        }
        Change::Doubled => {
            if place == at {
                put_text(script, words, place)?;
                script.push(' ')?;
            }
            put_text(script, words, place)
        }
        Change::Swapped => put_text(script, words, swapped_at(at, place)),
    }
}

/// The script with a change at a word.
pub(crate) fn changed(
    alloc: Global,
    words: &[Word],
    at: usize,
    change: Change,
) -> Result<String, AllocError> {
    let mut script = begun(alloc)?;
    for (place, word) in words.iter().enumerate() {
        put_changed(&mut script, words, at, place, change)?;
        put_behind(&mut script, word)?;
    }
    Ok(script)
}
