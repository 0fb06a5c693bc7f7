// Runs of bytes of one kind, eight bytes at a time.
#![tactic(auto)]

ghost use Rattle.std.specs.Prelude.{◌≤◌, ◌≡◌, length};
ghost use Rattle.lanes.specs.Kinds.{digit, gap};
ghost use Rattle.swar.specs.Kinds.{blank};
ghost use Rattle.swar.specs.Run.{Eights, Passed, Run};

use lanes::{Bare, Digit, Gap, Kind, Plain, Space, Unquoted};

const SPACE: u8 = b' ';

// A kind of bytes that is told of one byte, too, so that runs of it are read to their ends.
pub trait RunKind: Kind {
    // Whether `b` is of the kind.
    fn is_of(b: u8) -> bool
        ensures { result ≡ Self.kind b };
}

impl RunKind for Plain {
    #[tactic(auto, unfolding(lanes::specs::Kinds::plain))]
    fn is_of(b: u8) -> bool {
        matches!(b, 0x20..=0x21 | 0x23..=0x5B | 0x5D..=0x7F)
    }
}

impl RunKind for Unquoted {
    #[tactic(auto, unfolding(lanes::specs::Kinds::unquoted))]
    fn is_of(b: u8) -> bool {
        b != b'"'
    }
}

impl RunKind for Bare {
    #[tactic(auto, unfolding(lanes::specs::Kinds::bare))]
    fn is_of(b: u8) -> bool {
        !matches!(b, b'"' | b'\\')
    }
}

impl RunKind for Gap {
    #[tactic(auto, unfolding(lanes::specs::Kinds::gap))]
    fn is_of(b: u8) -> bool {
        b <= SPACE
    }
}

// The end of the run from `at` on, byte by byte: of the last few bytes alone, and so kept out of the loops that call it.
#[inline(never)]
fn run_tail<K: RunKind>(s: &[u8], at: usize) -> usize
    requires { at ≤ length s.now }
    ensures { Run K.kind s.now at result }
{
    at + s[at..].iter().take_while(|b| K::is_of(**b)).count()
}

// The first byte that is not of the kind, among those that stand from `at` on eight by eight; or, where all of these are, the place behind them.
// They are counted by hand: over pieces of eight the place would be counted beside them.
fn eights<K: Kind>(s: &[u8], at: usize) -> Result<usize, usize>
    requires { at ≤ length s.now }
    ensures { Eights K.kind s.now at result }
{
    let mut i = at;
    while s.len() - i >= 8 {
        let w = K::stops(bits::load8(s, i));
        if w != 0 {
            return Ok(i + lanes::zero_bytes(w));
        }
        i += 8;
    }
    Err(i)
}

// The end of the run of the kind from `at` on.
pub fn run<K: RunKind>(s: &[u8], at: usize) -> usize
    requires { at ≤ length s.now }
    ensures { Run K.kind s.now at result }
{
    match eights::<K>(s, at) {
        Ok(end) => end,
        Err(left) => run_tail::<K>(s, left),
    }
}

// A place from `at` on up to which all bytes are of the kind: all such where eight bytes more stand there.
pub fn passed<K: Kind>(s: &[u8], at: usize) -> usize
    requires { at ≤ length s.now }
    ensures { Passed K.kind s.now at result }
{
    match eights::<K>(s, at) {
        Ok(end) => end,
        Err(left) => left,
    }
}

// The end of the bytes up to the space from `at` on: at once where none stands there, or one alone.
pub fn gap_run(s: &[u8], at: usize) -> usize
    requires { at ≤ length s.now }
    ensures { Run gap s.now at result }
{
    if at >= s.len() {
        return at;
    }
    if s[at] > SPACE {
        return at;
    }
    let next = at + 1;
    if next >= s.len() {
        return next;
    }
    if s[next] > SPACE {
        return next;
    }
    run::<Gap>(s, next + 1)
}

// Whether `b` is a blank.
#[tactic(auto, unfolding(crate::specs::Kinds::blank, encoding::specs::Class::class_of))]
fn is_blank(b: u8) -> bool
    ensures { result ≡ blank b }
{
    matches!(b, b' ' | b'\t' | b'\n' | b'\r')
}

// The end of the blanks from `at` on, one blank and the spaces after it at a time.
fn blanks(s: &[u8], at: usize) -> usize
    requires { at ≤ length s.now }
    ensures { Run blank s.now at result }
{
    let mut i = at;
    while i < s.len() {
        if !is_blank(s[i]) {
            return i;
        }
        i = passed::<Space>(s, i + 1);
    }
    i
}

// The end of the blanks from `at` on: at once where none stands there, or one space alone.
pub fn blank_run(s: &[u8], at: usize) -> usize
    requires { at ≤ length s.now }
    ensures { Run blank s.now at result }
{
    if at >= s.len() {
        return at;
    }
    if s[at] > SPACE {
        return at;
    }
    let next = at + 1;
    if next < s.len() {
        if s[next] > SPACE {
            if s[at] == SPACE {
                return next;
            }
        }
    }
    blanks(s, at)
}

// A place from `at` on up to which there are digits: all of those that stand there, up to eight, where a point is near, and else none.
pub fn digits_to_point(s: &[u8], at: usize) -> usize
    requires { at ≤ length s.now }
    ensures { Passed digit s.now at result }
{
    if s.len() - at < 8 {
        return at;
    }
    let x = bits::load8(s, at);
    if !lanes::has_point(x) {
        return at;
    }
    at + lanes::zero_bytes(Digit::stops(x))
}
