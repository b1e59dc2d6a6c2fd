//! Numbers of JSON as decimals of any length.
ghost use Rattle.std.specs.Prelude.{◌≡◌, false, ◌^◌, ◌<◌, ◌≤◌, ◌++◌, IfOk, length};
ghost use Rattle.std.specs.Str.Parse.{AllDigits, digits_value};
ghost use Rattle.crs_identity.specs.Decimals.{are_equal_decimals, are_equal_numbers, decimal, decimal_of, is_far, is_negative, parts, without_leading_zeros, without_last_zeros};

use fast_float::Numeral;
use std::alloc::{AllocError, Global};

/// A number: `digits * 10 ^ up / 10 ^ down`, or that below zero.
#[derive(Drop)]
struct Number {
    negative: bool,
    digits: Vec<u8>,
    up: u128,
    down: u128,
}

/// Whether two texts are the same number. Errs only when out of memory.
pub(crate) fn are_equal_numbers(alloc: Global, a: &str, b: &str) -> Result<bool, AllocError>
    ensures { IfOk result (λ answer. answer ≡ are_equal_numbers a.now b.now) }
{
    let a = a.as_bytes();
    let b = b.as_bytes();
    if is_far(a) || is_far(b) {
        return Ok(a == b);
    }
    let x = number_of(alloc, a)?;
    let y = number_of(alloc, b)?;
    Ok(are_equal_decimals(&x, &y))
}

/// Whether a number is below zero, or `-0`.
fn is_negative(text: &[u8]) -> bool
    ensures { result ≡ is_negative text.now }
{
    match text.first() {
        Some(b) => *b == b'-',
        None => false,
    }
}

/// The parts of a number without its sign.
fn parts(text: &[u8]) -> Numeral<'_>
    ensures { result ≡ parts text.now }
{
    if is_negative(text) {
        Numeral::scan(&text[1..])
    } else {
        Numeral::scan(text)
    }
}

/// Whether the exponent has more than nine digits.
fn is_far(text: &[u8]) -> bool
    ensures { result ≡ is_far text.now }
{
    parts(text).exponent().len() > 9
}

/// Returns the number that a text is. Errs only when out of memory.
fn number_of(alloc: Global, text: &[u8]) -> Result<Number, AllocError>
    requires { is_far text.now ≡ false }
    ensures value { IfOk result (λ number. decimal number ≡ decimal_of text.now) }
    ensures small { IfOk result (λ number. (number.up < 2 ^ 66) × (number.down < 2 ^ 66)) }
{
    let parts = parts(text);
    let exponent = value_of(parts.exponent());
    let digits = digits_of(alloc, &parts)?;
    let all = without_leading_zeros(digits.as_slice());
    let kept = without_last_zeros(all);
    let zeros = (all.len() - kept.len()) as u128;
    let fraction = parts.fraction().len() as u128;
    let below = parts.is_exponent_negative();
    Ok(Number {
        negative: is_negative(text),
        digits: Vec::from_slice(alloc, kept)?,
        up: if below { zeros } else { exponent + zeros },
        down: if below { fraction + exponent } else { fraction },
    })
}

/// The number that at most nine digits are.
fn value_of(digits: &[u8]) -> u128
    requires digits { AllDigits 10 digits.now }
    requires few { length digits.now ≤ 9 }
    ensures value { result ≡ digits_value 10 digits.now }
    ensures below { result < 10 ^ 9 }
{
    match fast_float::parse_u64(digits) {
        Ok(value) => value as u128,
        Err(_) => 0,
    }
}

/// Returns all digits, those of the whole part before those of the fraction. Errs only when out of
/// memory.
fn digits_of(alloc: Global, parts: &Numeral<'_>) -> Result<Vec<u8>, AllocError>
    ensures { IfOk result (λ digits. digits.items ≡ parts.now.whole ++ parts.now.fraction) }
{
    let mut digits = Vec::from_slice(alloc, parts.whole())?;
    for b in parts.fraction() {
        digits.push(*b)?;
    }
    Ok(digits)
}

/// The digits without the zeros before them.
fn without_leading_zeros(digits: &[u8]) -> &[u8]
    ensures { result.now ≡ without_leading_zeros digits.now }
{
    let mut rest = digits;
    'zeros: while let [b'0', behind @ ..] = rest {
        rest = behind;
    }
    rest
}

/// The digits without the zeros behind them.
fn without_last_zeros(digits: &[u8]) -> &[u8]
    ensures zeros { result.now ≡ without_last_zeros digits.now }
    ensures fewer { length result.now ≤ length digits.now }
{
    let mut rest = digits;
    'zeros: while let [before @ .., b'0'] = rest {
        rest = before;
    }
    rest
}

/// Whether two numbers are equal.
fn are_equal_decimals(a: &Number, b: &Number) -> bool
    requires first { (a.now.up < 2 ^ 66) × (a.now.down < 2 ^ 66) }
    requires second { (b.now.up < 2 ^ 66) × (b.now.down < 2 ^ 66) }
    ensures { result ≡ are_equal_decimals (decimal a.now) (decimal b.now) }
{
    if a.digits.is_empty() && b.digits.is_empty() {
        return true;
    }
    a.negative == b.negative
        && a.digits.as_slice() == b.digits.as_slice()
        && a.up + b.down == b.up + a.down
}
