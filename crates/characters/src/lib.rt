// Strings of the check of a record (RFC 8259 section 7): runs of plain bytes, escapes, and code points by the rows of UTF-8 or by a table
// of moves.
#![tactic(auto)]

ghost use Rattle.std.specs.Prelude.{◌≡◌, ◌≤◌, ◌<◌, length, get_or};
ghost use Rattle.encoding.specs.Reads.{Reads};
ghost use Rattle.lanes.specs.Kinds.{plain};
ghost use Rattle.swar.specs.Run.{Run};
ghost use Rattle.swar.specs.KindLaws.{NotPlain};
ghost use Rattle.json_text.specs.Machine.{in_string, escaping, hex_due, closed};
ghost use Rattle.characters.specs.Strings.{LedBoth, Character};

use encoding::{Dead, Read};
use lanes::Plain;
use moves::Moves;

// How many hexadecimal digits an escaped code unit has.
const HEX_DIGITS: usize = 4;

// Reads the four hexadecimal digits of an escape.
fn hex_end(s: &[u8], from: usize) -> Read
    requires { from ≤ length s.now }
    ensures { Reads (LedBoth s.now from (hex_due 3) in_string) result }
{
    for i in from..from + HEX_DIGITS {
        if i >= s.len() || !s[i].is_ascii_hexdigit() {
            return Err(Dead { at: i });
        }
    }
    Ok(from + HEX_DIGITS)
}

// Reads what follows a backslash: a letter that stands for one character, or a `u` and its digits.
fn escape_end(s: &[u8], at: usize) -> Read
    requires { at ≤ length s.now }
    ensures { Reads (LedBoth s.now at escaping in_string) result }
{
    if at >= s.len() {
        return Err(Dead { at });
    }
    match s[at] {
        b'"' | b'\\' | b'/' | b'b' | b'f' | b'n' | b'r' | b't' => Ok(at + 1),
        b'u' => hex_end(s, at + 1),
        _ => Err(Dead { at }),
    }
}

// Reads what is not a plain byte nor the closing quote: the characters to which the moves lead, or, where they lead to none, one escape or
// the code points from 80 (hexadecimal) on that stand there.
fn character_end(s: &[u8], moves: &Moves, at: usize) -> Read
    requires { (at < length s.now) × NotPlain (get_or s.now at 0) × (get_or s.now at 0 ≡ 0x22 → ⊥) }
    ensures { Reads (Character s.now at) result }
{
    let end = moves.characters_end(s, at);
    if end > at {
        return Ok(end);
    }
    if !encoding::narrow(s[at]) {
        return encoding::code_points(s, at);
    }
    if s[at] == b'\\' {
        return escape_end(s, at + 1);
    }
    Err(Dead { at })
}

// The end of the plain bytes from `at` on; at once where a quote stands there.
fn rest_run(s: &[u8], at: usize) -> usize
    requires { at ≤ length s.now }
    ensures { Run plain s.now at result }
{
    if at < s.len() && s[at] == b'"' {
        return at;
    }
    swar::run::<Plain>(s, at)
}

// Reads a string from what follows its opening quote up to the place after its closing quote.
pub fn string_end(s: &[u8], moves: &Moves, from: usize) -> Read
    requires { from ≤ length s.now }
    ensures { Reads (LedBoth s.now from in_string closed) result }
{
    let mut i = swar::run::<Plain>(s, from);
    while i < s.len() {
        if s[i] == b'"' {
            return Ok(i + 1);
        }
        let end = character_end(s, moves, i)?;
        i = rest_run(s, end);
    }
    Err(Dead { at: i })
}
