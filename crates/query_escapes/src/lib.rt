// A scanner of the escapes of a query's quoted names (RFC 9535 section 2.3.1.1). Each part is scanned by a function of its own.
#![tactic(auto)]

ghost use Rattle.std.specs.Prelude.{◌≤◌, length};
ghost use Rattle.encoding.specs.Reads.{Reads};
ghost use Rattle.query.specs.Machine.{first, behind_d_of, digits, high_digits_of, low_backslash, low_d};
ghost use Rattle.query_escapes.specs.Scans.{Escaped, ByteAt, HexIs, HexAt, Part, TwoDigits, ThreeDigits, LowDigits, LowHalf, HighDigits, BehindD, BehindU};

use encoding::{Dead, Read};

const BACKSLASH: u8 = 0x5C;

// The byte at `at`; from the query's end on there is none, and that place is dead.
fn byte_at(query: &[u8], at: usize) -> Result<u8, Dead>
    ensures { ByteAt query.now at result }
{
    query.get(at).copied().ok_or(Dead { at })
}

// What `b` stands for as a hexadecimal digit.
#[tactic(auto, using(crate::specs::ScansLaws::hex_cases))]
fn hex(b: u8) -> Option<u8>
    ensures { HexIs b result }
{
    match b {
        b'0'..=b'9' => Some(b - b'0'),
        b'A'..=b'F' => Some(b - b'A' + 10),
        b'a'..=b'f' => Some(b - b'a' + 10),
        _ => None,
    }
}

// What the byte at `at` stands for as a hexadecimal digit; one that is none is dead.
fn hex_at(query: &[u8], at: usize) -> Result<u8, Dead>
    ensures { HexAt query.now at result }
{
    hex(byte_at(query, at)?).ok_or(Dead { at })
}

// The last two digits of an escape.
fn two_digits(query: &[u8], at: usize) -> Read
    requires { at ≤ length query.now }
    ensures { Reads (Part TwoDigits (digits 1) query.now at) result }
{
    hex_at(query, at)?;
    hex_at(query, at + 1)?;
    Ok(at + 2)
}

// The last three digits of an escape.
fn three_digits(query: &[u8], at: usize) -> Read
    requires { at ≤ length query.now }
    ensures { Reads (Part ThreeDigits (digits 2) query.now at) result }
{
    hex_at(query, at)?;
    two_digits(query, at + 1)
}

// The digits of a low half: a D, one from C to F, and two more.
fn low_digits(query: &[u8], at: usize) -> Read
    requires { at ≤ length query.now }
    ensures { Reads (Part LowDigits low_d query.now at) result }
{
    if hex_at(query, at)? != 0xD {
        return Err(Dead { at });
    }
    let next = at + 1;
    match hex_at(query, next)? {
        0xC..=0xF => two_digits(query, next + 1),
        _ => Err(Dead { at: next }),
    }
}

// A low half, with its backslash.
fn low_half(query: &[u8], at: usize) -> Read
    requires { at ≤ length query.now }
    ensures { Reads (Part LowHalf low_backslash query.now at) result }
{
    if byte_at(query, at)? != BACKSLASH {
        return Err(Dead { at });
    }
    let next = at + 1;
    if byte_at(query, next)? != b'u' {
        return Err(Dead { at: next });
    }
    low_digits(query, next + 1)
}

// What follows the first two digits of a high half: two more, and a low half.
fn high_digits(query: &[u8], at: usize) -> Read
    requires { at ≤ length query.now }
    ensures { Reads (Part HighDigits (high_digits_of 1) query.now at) result }
{
    hex_at(query, at)?;
    hex_at(query, at + 1)?;
    low_half(query, at + 2)
}

// What follows `\uD`: from 0 to 7 no half, from 8 to B a high half and its low half, and no low half alone.
fn behind_d(query: &[u8], at: usize) -> Read
    requires { at ≤ length query.now }
    ensures { Reads (Part BehindD behind_d_of query.now at) result }
{
    match hex_at(query, at)? {
        0x0..=0x7 => two_digits(query, at + 1),
        0x8..=0xB => high_digits(query, at + 1),
        _ => Err(Dead { at }),
    }
}

// What follows `\u`.
fn behind_u(query: &[u8], at: usize) -> Read
    requires { at ≤ length query.now }
    ensures { Reads (Part BehindU first query.now at) result }
{
    match hex_at(query, at)? {
        0xD => behind_d(query, at + 1),
        _ => three_digits(query, at + 1),
    }
}

// What follows the backslash of an escape, in a name between two of `quote`.
pub fn escaped(query: &[u8], quote: u8, at: usize) -> Read
    requires { at ≤ length query.now }
    ensures { Reads (Escaped query.now quote at) result }
{
    let b = byte_at(query, at)?;
    if b == quote {
        return Ok(at + 1);
    }
    match b {
        b'b' | b'f' | b'n' | b'r' | b't' | b'/' | b'\\' => Ok(at + 1),
        b'u' => behind_u(query, at + 1),
        _ => Err(Dead { at }),
    }
}
