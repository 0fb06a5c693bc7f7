// Numbers (RFC 8259 section 6).
ghost use Rattle.std.specs.Prelude.{◌≤◌, ◌<◌, true, length, get_or};
ghost use Rattle.encoding.specs.Reads.{Reads};
ghost use Rattle.lanes.specs.Kinds.{digit};
ghost use Rattle.swar.specs.Run.{Run};
ghost use Rattle.json_text.specs.Machine.{value_due, after, after_minus, after_e, after_sign};
ghost use Rattle.json_text.specs.Led.{Led};
ghost use Rattle.scalars.specs.Numbers.{DigitAt, Exponent, Fraction, Number, WholePart};
ghost use Rattle.scalars.specs.Scalars.{Bare};

use crate::byte_at;
use encoding::{Dead, Read};
use lanes::Digit;

// Whether a digit stands at `at`.
fn digit_at(s: &[u8], at: usize) -> bool
    ensures { DigitAt s.now at result }
{
    matches!(s.get(at), Some(b'0'..=b'9'))
}

// The place after the digits that stand from `from` on. They are asked four in a turn: few numbers have more, and each has its own branch.
fn digits_end(s: &[u8], from: usize) -> usize
    requires { from ≤ length s.now }
    ensures { Run digit s.now from result }
{
    let mut i = from;
    loop {
        if !digit_at(s, i) {
            return i;
        }
        let second = i + 1;
        if !digit_at(s, second) {
            return second;
        }
        let third = second + 1;
        if !digit_at(s, third) {
            return third;
        }
        let fourth = third + 1;
        if !digit_at(s, fourth) {
            return fourth;
        }
        i = fourth + 1;
    }
}

// The place after the digits that stand from `from` on, of which there may be many.
fn many_digits_end(s: &[u8], from: usize) -> usize
    requires { from ≤ length s.now }
    ensures { Run digit s.now from result }
{
    digits_end(s, swar::passed::<Digit>(s, from))
}

// The place after the sign that stands at `at`, or `at` where none does.
fn sign_end(s: &[u8], at: usize) -> usize
    requires { at ≤ length s.now }
    ensures { Led s.now at after_e after_sign true result }
{
    match s.get(at) {
        Some(b'+' | b'-') => at + 1,
        _ => at,
    }
}

// Reads what follows the letter of an exponent: a sign or none, and digits. Refused where no digit stands, at the place of the first.
fn power_end(s: &[u8], at: usize) -> Read
    requires { at ≤ length s.now }
    ensures { Reads (Led s.now at after_e after) result }
{
    let first = sign_end(s, at);
    let end = digits_end(s, first);
    if end == first {
        return Err(Dead { at: first });
    }
    Ok(end)
}

// Reads an exponent, or nothing where none stands.
fn exponent_end(s: &[u8], at: usize) -> Read
    requires { at ≤ length s.now }
    ensures { Reads (Exponent s.now at) result }
{
    match s.get(at) {
        Some(b'e' | b'E') => power_end(s, at + 1),
        _ => Ok(at),
    }
}

// Reads a fraction, or nothing where no point stands. Refused where no digit follows the point.
fn fraction_end(s: &[u8], at: usize) -> Read
    requires { at ≤ length s.now }
    ensures { Reads (Fraction s.now at) result }
{
    if !byte_at(s, at, b'.') {
        return Ok(at);
    }
    let behind = at + 1;
    let end = many_digits_end(s, behind);
    if end == behind {
        return Err(Dead { at: behind });
    }
    Ok(end)
}

// The place after the whole part of a number, a nought or digits that begin with another, or `at` where there is none.
fn whole_end(s: &[u8], at: usize) -> usize
    requires { at ≤ length s.now }
    ensures { WholePart s.now at result }
{
    if byte_at(s, at, b'0') {
        return at + 1;
    }
    digits_end(s, swar::digits_to_point(s, at))
}

// The place after the minus sign that stands at `at`, or `at` where none does.
pub fn minus_end(s: &[u8], at: usize) -> usize
    requires { (at < length s.now) × Bare (get_or s.now at 0) × (get_or s.now at 0 ≤ 0x39) }
    ensures { Led s.now at value_due after_minus true result }
{
    if s[at] == b'-' {
        return at + 1;
    }
    at
}

// Reads a number that has no sign, or what follows its sign.
pub fn number_end(s: &[u8], at: usize) -> Read
    requires { at ≤ length s.now }
    ensures { Reads (Number s.now at) result }
{
    let whole = whole_end(s, at);
    if whole == at {
        return Err(Dead { at });
    }
    exponent_end(s, fraction_end(s, whole)?)
}
