// Scanners over a checked record: blanks, strings, words, and what stands before an item's value.
#![tactic(auto)]

ghost use Rattle.std.specs.Prelude.{◌≡◌, false, ◌-◌, ◌≤◌, length, drop};
ghost use Rattle.blocks.specs.Words.{odd_before};
ghost use Rattle.swar.specs.Run.{Run};
ghost use Rattle.scan.specs.Shape.{ends_word_of};
ghost use Rattle.scan.specs.Scans.{is_word_byte, EndsBlanks, EndsString, EndsName, EndsScalar, EntersItem};

use lanes::{Bare, Inner, Unquoted};

const QUOTE: u8 = 0x22;

const BACKSLASH: u8 = 0x5C;

// The place after a name's closing quote, and whether a backslash may be among the name's bytes; false where none is.
#[derive(Clone, Copy)]
struct NameEnd {
    end: usize,
    escaped: bool,
}

// The first byte of an item's value, where its name's bytes are, and whether a backslash may be among these; false where none is. In an array both
// ends are 0. The name is no Option: what the walks show of EntersItem is of its numbers, and whether an item has a name is told by `object`.
#[derive(Clone, Copy)]
pub struct Entered {
    pub value: usize,
    pub from: usize,
    pub to: usize,
    pub escaped: bool,
}

// An item without a name.
const UNNAMED: Entered = Entered {
    value: 0,
    from: 0,
    to: 0,
    escaped: false,
};

// Whether `b` ends a literal or a number.
#[tactic(auto, unfolding(crate::specs::Shape::ends_word_of))]
fn ends_word(b: u8) -> bool
    ensures { result ≡ ends_word_of b }
{
    matches!(
        encoding::class(b),
        encoding::CLOSING | encoding::COMMA | encoding::BLANK
    )
}

// The place after the blanks at `at`: a checked record has no other bytes up to the space outside its strings.
pub fn skip_blanks(s: &[u8], at: usize) -> usize
    requires { at ≤ length s.now }
    ensures { EndsBlanks s.now at result }
{
    swar::gap_run(s, at)
}

// Whether an odd run of backslashes stands just before `q`, of the bytes from `from` on.
fn escaped(s: &[u8], from: usize, q: usize) -> bool
    requires from_le_q { from ≤ q }
    requires q_in_bounds { q ≤ length s.now }
    ensures { result ≡ odd_before false (drop from s.now) (q - from) }
{
    let mut odd = false;
    for before in (from..q).rev() {
        if s[before] != BACKSLASH {
            return odd;
        }
        odd = !odd;
    }
    odd
}

// The place after the closing quote of the string whose opening quote stands just before `at`.
pub fn string_end(s: &[u8], at: usize) -> usize
    requires { at ≤ length s.now }
    ensures { EndsString s.now at result }
{
    let mut i = at;
    loop {
        let q = swar::run::<Unquoted>(s, i);
        if q >= s.len() {
            return q;
        }
        if !escaped(s, i, q) {
            return q + 1;
        }
        i = q + 1;
    }
}

// The end of the name whose opening quote stands just before `at`: a quote with no backslash before it ends the name at once.
fn name_end(s: &[u8], at: usize) -> NameEnd
    requires { at ≤ length s.now }
    ensures { EndsName s.now at result.end result.escaped }
{
    let q = swar::run::<Bare>(s, at);
    if q < s.len() && s[q] == QUOTE {
        return NameEnd {
            end: q + 1,
            escaped: false,
        };
    }
    NameEnd {
        end: string_end(s, q),
        escaped: true,
    }
}

// The end of the bytes from `at` on that do not end a literal or a number: most of them are passed eight at a time.
fn word_run(s: &[u8], at: usize) -> usize
    requires { at ≤ length s.now }
    ensures { Run is_word_byte s.now at result }
{
    let mut i = at;
    loop {
        let end = swar::passed::<Inner>(s, i);
        if end >= s.len() {
            return end;
        }
        if ends_word(s[end]) {
            return end;
        }
        i = end + 1;
    }
}

// The place after the scalar at `at`.
pub fn scalar_end(s: &[u8], at: usize) -> usize
    requires { at ≤ length s.now }
    ensures { EndsScalar s.now at result }
{
    if at >= s.len() {
        return at;
    }
    if s[at] == QUOTE {
        return string_end(s, at + 1);
    }
    word_run(s, at)
}

// Passes the blanks at `at` and, in an object, the name and its colon: the first byte of the item's value.
pub fn enter_item(s: &[u8], at: usize, object: bool) -> Entered
    requires { at ≤ length s.now }
    ensures { EntersItem s.now at object result.value result.from result.to result.escaped }
{
    let a = skip_blanks(s, at);
    if !object || a >= s.len() {
        return Entered {
            value: a,
            ..UNNAMED
        };
    }
    let from = a + 1;
    let name = name_end(s, from);
    let end = name.end;
    let colon = skip_blanks(s, end);
    if colon >= s.len() || end <= from {
        return Entered {
            value: colon,
            ..UNNAMED
        };
    }
    let value = skip_blanks(s, colon + 1);
    Entered {
        value,
        from,
        to: end - 1,
        escaped: name.escaped,
    }
}
