//! The shapes of a journal's lines, each added to a text.

ghost use Rattle.std.specs.Prelude.{◌≡◌, ◌++◌, ◌<◌, ◌≤◌, length, OnOk, IsAscii, codes, string_bytes};
ghost use Rattle.std.specs.Fmt.{decimal, signed_decimal};
ghost use Rattle.hex.specs.Hex.{encode_lower};
ghost use Rattle.rt_hasher.specs.TaskEvent.{small_number};
ghost use Rattle.rt_audit.specs.Lines.{optional_number, numbers_text, hex_text, fields_text, choice_text, choices_text};

use crate::auditor::low_bytes;
use crate::digit_pairs::two_digits;
use crate::event_fields::{EventFields, FieldsKind};
use itoa::Buffer;
use rt_base::{Choice, Items, NoMemory};
use std::alloc::Global;
use std::str;

/// So many bytes are printed in hex without memory of their own.
const SHORT_HEX: usize = 32;

/// Adds a word.
#[inline(always)]
pub fn add_word(text: &mut String, word: &str) -> Result<(), NoMemory>
    ensures { OnOk result (string_bytes text.new ≡ string_bytes text.old ++ word.now) }
{
    text.push_str(word)?;
    Ok(())
}

/// Adds a space.
#[inline(always)]
pub fn add_space(text: &mut String) -> Result<(), NoMemory>
    ensures { OnOk result (string_bytes text.new ≡ string_bytes text.old ++ codes " ") }
{
    text.push(' ')?;
    Ok(())
}

/// Adds a number. Most have few digits.
#[inline(always)]
pub fn add_number(text: &mut String, number: u128) -> Result<(), NoMemory>
    ensures { OnOk result (string_bytes text.new ≡ string_bytes text.old ++ decimal number) }
{
    if number < 10 {
        return add_ascii(text, &[b'0' + number as u8]);
    }
    if number < 10_000 {
        return add_few(text, number as u64);
    }
    add_digits(text, number)
}

/// A number of two to four digits. Not inlined, so that one digit is written in place.
#[inline(never)]
fn add_few(text: &mut String, number: u64) -> Result<(), NoMemory>
    requires { (10 ≤ number) × (number < 10000) }
    ensures { OnOk result (string_bytes text.new ≡ string_bytes text.old ++ decimal number) }
{
    let [ten, last] = two_digits(number % 100);
    let hundreds = number / 100;
    if hundreds == 0 {
        return add_ascii(text, &[ten, last]);
    }
    if hundreds < 10 {
        return add_ascii(text, &[b'0' + hundreds as u8, ten, last]);
    }
    let [thousand, hundred] = two_digits(hundreds);
    add_ascii(text, &[thousand, hundred, ten, last])
}

/// A number of five digits.
fn add_five(text: &mut String, number: u64) -> Result<(), NoMemory>
    requires { (10000 ≤ number) × (number < 100000) }
    ensures { OnOk result (string_bytes text.new ≡ string_bytes text.old ++ decimal number) }
{
    let [ten, last] = two_digits(number % 100);
    let hundreds = number / 100;
    let [thousand, hundred] = two_digits(hundreds % 100);
    let first = b'0' + (hundreds / 100) as u8;
    add_ascii(text, &[first, thousand, hundred, ten, last])
}

/// A number of more than four digits.
#[inline(never)]
fn add_digits(text: &mut String, number: u128) -> Result<(), NoMemory>
    requires { 10000 ≤ number }
    ensures { OnOk result (string_bytes text.new ≡ string_bytes text.old ++ decimal number) }
{
    match u64::try_from(number) {
        Ok(number) if number < 100_000 => return add_five(text, number),
        Ok(number) => text.push_str(Buffer::new().format(number))?,
        Err(_) => text.push_str(Buffer::new().format(number))?,
    }
    Ok(())
}

/// ASCII characters.
#[inline(always)]
fn add_ascii(text: &mut String, word: &[u8]) -> Result<(), NoMemory>
    requires { IsAscii word.now }
    ensures { OnOk result (string_bytes text.new ≡ string_bytes text.old ++ word.now) }
{
    let word = unsafe { str::from_utf8_unchecked(word) };
    add_word(text, word)
}

/// Adds a word with its space, and a number.
#[inline(always)]
pub fn add_numbered(text: &mut String, word: &str, number: u128) -> Result<(), NoMemory>
    ensures { OnOk result (string_bytes text.new ≡ string_bytes text.old ++ (word.now ++ decimal number)) }
{
    add_word(text, word)?;
    add_number(text, number)
}

/// Adds a word with its space, and a number that may be below zero.
pub fn add_signed(text: &mut String, word: &str, number: i32) -> Result<(), NoMemory>
    ensures { OnOk result (string_bytes text.new ≡ string_bytes text.old ++ (word.now ++ signed_decimal number)) }
{
    add_word(text, word)?;
    text.push_str(Buffer::new().format(number))?;
    Ok(())
}

/// Adds a number, or `-` where there is none.
#[inline(always)]
pub fn add_optional(text: &mut String, number: Option<u128>) -> Result<(), NoMemory>
    ensures { OnOk result (string_bytes text.new ≡ string_bytes text.old ++ optional_number number) }
{
    match number {
        None => add_word(text, "-"),
        Some(number) => add_number(text, number),
    }
}

/// Adds each number after a space.
pub fn add_numbers(text: &mut String, numbers: &[u64]) -> Result<(), NoMemory>
    ensures { OnOk result (string_bytes text.new ≡ string_bytes text.old ++ numbers_text numbers.now) }
{
    for number in numbers {
        add_space(text)?;
        add_number(text, *number as u128)?;
    }
    Ok(())
}

/// A space, and bytes as lower-case hex, or `-` where there are none. The high half of a task's number mostly has zeros
/// alone.
#[tactic(auto, using(crate::proofs::Zeros::number_then))]
fn add_field(alloc: Global, text: &mut String, bytes: &[u8]) -> Result<(), NoMemory>
    ensures { OnOk result (string_bytes text.new ≡ string_bytes text.old ++ (codes " " ++ hex_text bytes.now)) }
{
    if bytes.is_empty() {
        return add_word(text, " -");
    }
    add_space(text)?;
    if let Some(low) = low_bytes(bytes) {
        add_low(text, low)?;
        return Ok(());
    }
    add_hex(alloc, text, bytes)
}

/// Adds bytes as lower-case hex, or `-` where there are none.
pub fn add_bytes(alloc: Global, text: &mut String, bytes: &[u8]) -> Result<(), NoMemory>
    ensures { OnOk result (string_bytes text.new ≡ string_bytes text.old ++ hex_text bytes.now) }
{
    if bytes.is_empty() {
        return add_word(text, "-");
    }
    add_hex(alloc, text, bytes)
}

/// Bytes as lower-case hex.
fn add_hex(alloc: Global, text: &mut String, bytes: &[u8]) -> Result<(), NoMemory>
    ensures { OnOk result (string_bytes text.new ≡ string_bytes text.old ++ encode_lower bytes.now) }
{
    if bytes.len() <= SHORT_HEX {
        return add_short_hex(text, bytes);
    }
    let encoded = hex::encode(alloc, bytes)?;
    add_word(text, encoded.as_str())
}

/// Eight bytes of zeros and then these as lower-case hex. Most numbers of tasks have two bytes at most.
#[inline(always)]
#[tactic(auto, using(crate::proofs::Zeros::zeros_then, crate::proofs::Zeros::more_zeros_then))]
fn add_low(text: &mut String, low: [u8; 8]) -> Result<(), NoMemory>
    ensures { OnOk result (string_bytes text.new ≡ string_bytes text.old ++ encode_lower (small_number low)) }
{
    if let Some((high, rest)) = low.as_slice().split_first_chunk::<6>() {
        if *high == [0; 6] {
            add_word(text, "0000000000000000000000000000")?;
            return add_short_hex(text, rest);
        }
    }
    add_word(text, "0000000000000000")?;
    add_short_hex(text, &low)?;
    Ok(())
}

/// A few bytes as lower-case hex.
fn add_short_hex(text: &mut String, bytes: &[u8]) -> Result<(), NoMemory>
    requires { length bytes.now ≤ SHORT_HEX }
    ensures { OnOk result (string_bytes text.new ≡ string_bytes text.old ++ encode_lower bytes.now) }
{
    let mut buffer = [0u8; 2 * SHORT_HEX];
    let digits = &mut buffer[..2 * bytes.len()];
    let Ok(()) = hex::encode_to_slice(bytes, digits) else {
        unreachable!();
    };
    // Hex digits are ASCII.
    let word = unsafe { str::from_utf8_unchecked(digits) };
    add_word(text, word)
}

/// Adds each field after a space.
pub fn add_fields(alloc: Global, text: &mut String, fields: &EventFields) -> Result<(), NoMemory>
    ensures { OnOk result (string_bytes text.new ≡ string_bytes text.old ++ fields_text fields.now) }
{
    match fields.kind() {
        FieldsKind::OfTask { number, label } => {
            add_field(alloc, text, number.as_slice())?;
            add_field(alloc, text, label.as_str().as_bytes())
        }
        FieldsKind::OfTaskInPlace { number, label } => {
            add_field(alloc, text, number.as_slice())?;
            add_field(alloc, text, label.as_bytes())
        }
        FieldsKind::Listed(fields) => add_listed(alloc, text, fields.as_slice()),
    }
}

fn add_listed(alloc: Global, text: &mut String, fields: &[Items<u8>]) -> Result<(), NoMemory>
    ensures { OnOk result (string_bytes text.new ≡ string_bytes text.old ++ fields_text fields.now) }
{
    for field in fields {
        add_field(alloc, text, field.as_slice())?;
    }
    Ok(())
}

/// A crash's choice.
fn add_choice(text: &mut String, choice: Choice) -> Result<(), NoMemory>
    ensures { OnOk result (string_bytes text.new ≡ string_bytes text.old ++ choice_text choice) }
{
    match choice {
        Choice::Kept => add_word(text, "k"),
        Choice::Dropped => add_word(text, "d"),
        Choice::Prefix(length) => add_numbered(text, "p", length as u128),
    }
}

/// Adds each choice after a space.
pub fn add_choices(text: &mut String, choices: &[Choice]) -> Result<(), NoMemory>
    ensures { OnOk result (string_bytes text.new ≡ string_bytes text.old ++ choices_text choices.now) }
{
    for choice in choices {
        add_word(text, " ")?;
        add_choice(text, *choice)?;
    }
    Ok(())
}
