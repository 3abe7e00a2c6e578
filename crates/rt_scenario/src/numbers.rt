// Numbers and values of a scenario.
ghost use Rattle.std.specs.Prelude.{◌≡◌, ◌+◌, ◌*◌, ◌<◌, ◌≤◌, ◌^◌, ℕ, List, length, Some, true};
ghost use Rattle.std.specs.List.{list_all};
ghost use Rattle.std.specs.Char.{is_ascii_digit, digit_value};
ghost use Rattle.std.specs.Str.Parse.{digits_value, digits_value_after};
ghost use Rattle.rt_scenario.specs.Numbers.{number_of, small_number_of, value_of, small_value_of, is_decimal, minus, narrow, below};

/// Returns the decimal number, without sign or leading zero and below `2^128`, that the text writes.
pub fn number_of(text: &[u8]) -> Option<u128>
    ensures { result ≡ number_of text.now }
{
    if is_decimal(text) {
        digits_number(text)
    } else {
        None
    }
}

/// Returns the decimal number, without sign or leading zero and below `2^64`, that the text writes.
pub fn small_number_of(text: &[u8]) -> Option<u64>
    ensures { result ≡ small_number_of text.now }
{
    u64::try_from(number_of(text)?).ok()
}

/// Returns the number that digits write, by 64 bits as long as it fits them.
fn digits_number(text: &[u8]) -> Option<u128>
    requires { list_all is_ascii_digit text.now ≡ true }
    ensures { result ≡ below (2 ^ 128) (digits_value 10 text.now) }
{
    let mut number = 0u64;
    let mut rest = text;
    while let Some((digit, tail)) = rest.split_first() {
        let Some(more) = with_digit(number, *digit) else {
            return wide_number(number, rest);
        };
        number = more;
        rest = tail;
    }
    Some(u128::from(number))
}

/// Returns the number with a digit more, where 64 bits hold it.
fn with_digit(number: u64, digit: u8) -> Option<u64>
    requires { is_ascii_digit digit ≡ true }
    ensures { result ≡ below (2 ^ 64) (number * 10 + digit_value digit) }
{
    number.checked_mul(10)?.checked_add(digit_number(digit))
}

fn digit_number(digit: u8) -> u64
    requires { is_ascii_digit digit ≡ true }
    ensures { result ≡ digit_value digit }
{
    u64::from(digit - b'0')
}

/// Returns the number that these digits and then those of the text write.
fn wide_number(start: u64, text: &[u8]) -> Option<u128>
    requires { list_all is_ascii_digit text.now ≡ true }
    ensures { result ≡ below (2 ^ 128) (digits_value_after 10 start text.now) }
{
    let mut number = u128::from(start);
    let mut rest = text;
    while let Some((digit, tail)) = rest.split_first() {
        number = number
            .checked_mul(10)?
            .checked_add(u128::from(digit_number(*digit)))?;
        rest = tail;
    }
    Some(number)
}

/// Returns the number, or the minus sign and the number other than 0, within an `i64`, that the text writes.
pub fn value_of(text: &[u8]) -> Option<i64>
    ensures { result ≡ value_of text.now }
{
    match text {
        [b'-', rest @ ..] => negative_of(number_of(rest)?),
        _ => i64::try_from(number_of(text)?).ok(),
    }
}

/// Returns the number, or the minus sign and the number other than 0, within an `i32`, that the text writes.
pub fn small_value_of(text: &[u8]) -> Option<i32>
    ensures { result ≡ small_value_of text.now }
{
    narrow(value_of(text)?)
}

fn narrow(value: i64) -> Option<i32>
    ensures { result ≡ narrow (Some value) }
{
    i32::try_from(value).ok()
}

fn is_decimal(text: &[u8]) -> bool
    ensures { result ≡ is_decimal text.now }
{
    match text {
        [] => false,
        [b'0'] => true,
        [b'0', ..] => false,
        _ => are_digits(text),
    }
}

fn are_digits(text: &[u8]) -> bool
    ensures { result ≡ list_all is_ascii_digit text.now }
{
    text.iter().all(|b| b.is_ascii_digit())
}

fn negative_of(number: u128) -> Option<i64>
    ensures { result ≡ minus (Some number) }
{
    if number == 0 {
        return None;
    }
    let number = i128::try_from(number).ok()?;
    i64::try_from(-number).ok()
}
