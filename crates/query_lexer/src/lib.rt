// Scanners over a query's bytes: blanks, the two kinds of names, and positions.
#![tactic(auto)]

ghost use Rattle.std.specs.Prelude.{◌≡◌, ◌+◌, ◌-◌, ◌*◌, ◌≤◌, ◌<◌, length, get_or};
ghost use Rattle.encoding.specs.Reads.{Reads};
ghost use Rattle.query.specs.Grammar.{max_position};
ghost use Rattle.query_lexer.specs.Scans.{BlankIs, NameByteIs, Skipped, NameChar, FirstChar, ShortName, QuotedChar, QuotedName};
ghost use Rattle.query_lexer.specs.Scans.{IsDigit, DigitIs, LeadsOn, PositionAt};

use encoding::{Dead, Read};

// The four blanks.
const SPACE: u8 = 0x20;

const TAB: u8 = 0x09;

const FEED: u8 = 0x0A;

const RETURN: u8 = 0x0D;

// The first byte that is no control.
const PRINTABLE: u8 = 0x20;

const BACKSLASH: u8 = 0x5C;

// The largest position, 2^53 - 1.
const MAX_POSITION: u64 = 9_007_199_254_740_991;

// A position's digits: the place after the last, and the number that they stand for.
#[derive(Drop)]
pub struct Digits {
    pub at: usize,
    pub number: u64,
}

// Whether `b` is a blank.
#[tactic(auto, using(crate::specs::ScansLaws::blank_cases))]
fn is_blank(b: u8) -> bool
    ensures { BlankIs b result }
{
    matches!(b, SPACE | TAB | FEED | RETURN)
}

// The end of the blanks that start at `at`: the first place from there on with no blank, or the length.
pub fn skip_blanks(query: &[u8], at: usize) -> usize
    requires { at ≤ length query.now }
    ensures { Skipped query.now at result }
{
    for i in at..query.len() {
        if !is_blank(query[i]) {
            return i;
        }
    }
    query.len()
}

// Whether `b`, below 80, may stand in a shorthand name.
#[tactic(auto, using(crate::specs::ScansLaws::name_byte_cases))]
fn is_name_byte(b: u8) -> bool
    ensures { NameByteIs b result }
{
    matches!(b, b'0'..=b'9' | b'A'..=b'Z' | b'_' | b'a'..=b'z')
}

// One character of a shorthand name at `at`: the place after it. Dead is the byte at `at` where that is one below 80 that is in no name, and
// else the first with which no code point goes on.
fn name_char(query: &[u8], at: usize) -> Read
    requires { at < length query.now }
    ensures { Reads (NameChar query.now at) result }
{
    let b = query[at];
    if !encoding::narrow(b) {
        return encoding::code_point(query, at);
    }
    if is_name_byte(b) {
        return Ok(at + 1);
    }
    Err(Dead { at })
}

// The first character of a shorthand name at `at`, which is no digit.
fn first_char(query: &[u8], at: usize) -> Read
    requires { at < length query.now }
    ensures { Reads (FirstChar query.now at) result }
{
    if is_digit(query[at]) {
        return Err(Dead { at });
    }
    name_char(query, at)
}

// The shorthand name at `at`.
pub fn shorthand(query: &[u8], at: usize) -> Read
    requires { at < length query.now }
    ensures { Reads (ShortName query.now at) result }
{
    let mut i = first_char(query, at)?;
    while i < query.len() {
        match name_char(query, i) {
            Ok(next) => i = next,
            Err(_) if encoding::narrow(query[i]) => return Ok(i),
            Err(dead) => return Err(dead),
        }
    }
    Ok(i)
}

// One character at `at` of a name between two of `quote`, where its quote does not stand.
fn quoted_char(query: &[u8], quote: u8, at: usize) -> Read
    requires { at < length query.now }
    ensures { Reads (QuotedChar query.now quote at) result }
{
    let b = query[at];
    if !encoding::narrow(b) {
        return encoding::code_point(query, at);
    }
    if b < PRINTABLE {
        return Err(Dead { at });
    }
    if b == BACKSLASH {
        return query_escapes::escaped(query, quote, at + 1);
    }
    Ok(at + 1)
}

// The quoted name whose first character would stand at `at`, up to the place of its closing quote.
pub fn quoted(query: &[u8], quote: u8, at: usize) -> Read
    requires { at ≤ length query.now }
    ensures { Reads (QuotedName query.now quote at) result }
{
    let mut i = at;
    while i < query.len() {
        if query[i] == quote {
            return Ok(i);
        }
        i = quoted_char(query, quote, i)?;
    }
    Err(Dead { at: i })
}

// Whether `b` is a digit.
#[tactic(auto, using(crate::specs::ScansLaws::digit_cases))]
pub fn is_digit(b: u8) -> bool
    ensures { DigitIs b result }
{
    matches!(b, b'0'..=b'9')
}

// The number that the digits of `number` stand for with the digit `b` behind them.
fn with_digit(number: u64, b: u8) -> u64
    requires { (number ≤ max_position) × IsDigit b }
    ensures { result ≡ number * 10 + (b - 0x30) }
{
    number * 10 + u64::from(b - b'0')
}

// The number to which `b` leads on, as one digit more behind those of `number`: none stands behind a first 0, and none carries the number past
// the maximum.
#[tactic(auto, using(crate::specs::ScansLaws::leads_on_cases))]
fn leads_on(number: u64, b: u8) -> Option<u64>
    requires { number ≤ max_position }
    ensures { LeadsOn number b result }
{
    if number == 0 || !is_digit(b) {
        return None;
    }
    let more = with_digit(number, b);
    if more > MAX_POSITION {
        return None;
    }
    Some(more)
}

// The position whose first digit stands at `at`: as many digits as lead on, so none behind a first 0, and none that would carry the number
// past the maximum.
pub fn position(query: &[u8], at: usize) -> Digits
    requires { (at < length query.now) × IsDigit (get_or query.now at 0) }
    ensures { PositionAt query.now at result.at result.number }
{
    let mut number = with_digit(0, query[at]);
    for i in at + 1..query.len() {
        let Some(more) = leads_on(number, query[i]) else {
            return Digits { at: i, number };
        };
        number = more;
    }
    Digits {
        at: query.len(),
        number,
    }
}
