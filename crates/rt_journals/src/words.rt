//! Lines as words.

use hex::FromHexError;
use rt_audit::Moment;
use rt_base::{Items, Nanos, NoMemory};
use std::alloc::Global;

/// The words of a line, with one space between each two.
pub fn words_of<'a>(alloc: Global, line: &'a str) -> Result<Vec<&'a str>, NoMemory> {
    let mut words = Vec::new(alloc);
    add_words(&mut words, line)?;
    Ok(words)
}

fn add_words<'a>(words: &mut Vec<&'a str>, line: &'a str) -> Result<(), NoMemory> {
    for word in line.split(' ') {
        words.push(word)?;
    }
    Ok(())
}

/// The word, if it may be a number of a journal: it begins with a digit, and with a zero only where that is all.
fn plain(word: &str) -> Option<&str> {
    match word.as_bytes() {
        [] | [b'0', _, ..] => None,
        [first, ..] if first.is_ascii_digit() => Some(word),
        _ => None,
    }
}

/// The number that a word writes, or `None` where it writes none.
pub fn number(word: &str) -> Option<u64> {
    plain(word)?.parse::<u64>().ok()
}

/// The same with a sign where it is below zero.
pub fn signed(word: &str) -> Option<i32> {
    match word.strip_prefix('-') {
        Some("0") => return None,
        Some(digits) => plain(digits)?,
        None => plain(word)?,
    };
    word.parse::<i32>().ok()
}

/// The moment that a word writes.
pub fn moment(word: &str) -> Option<Moment> {
    Some(Moment::new(plain(word)?.parse::<Nanos>().ok()?))
}

/// A number, or none for `-`. Any other word is neither.
pub fn number_or_none(word: &str) -> Option<Option<u64>> {
    if word == "-" {
        return Some(None);
    }
    Some(Some(number(word)?))
}

/// Whether a word has digits of hex alone, at least one, and no capital ones.
fn is_hex(word: &str) -> bool {
    !word.is_empty()
        && word.as_bytes().iter().all(|byte| byte.is_ascii_hexdigit() && !byte.is_ascii_uppercase())
}

/// The number that a word writes in hex.
pub fn hex_number(word: &str) -> Option<u64> {
    if !is_hex(word) {
        return None;
    }
    u64::from_str_radix(word, 16).ok()
}

/// The bytes that a word writes in hex, or `-` where there are none.
pub fn hex_bytes(alloc: Global, word: &str) -> Result<Option<Items<u8>>, NoMemory> {
    if word == "-" {
        return Ok(Some(Items::of(Vec::new(alloc))));
    }
    if !is_hex(word) {
        return Ok(None);
    }
    match hex::decode(alloc, word) {
        Ok(bytes) => Ok(Some(Items::of(bytes))),
        Err(FromHexError::OutOfMemory) => Err(NoMemory),
        Err(_) => Ok(None),
    }
}
