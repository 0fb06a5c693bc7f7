// Eight bytes of a word at once: which of them are not of a kind, and the first of these.
#![tactic(auto)]

ghost use Rattle.std.specs.Prelude.{◌≡◌, ℕ, Bool, ◌+◌, ◌-◌, ◌*◌, ◌%◌, ◌^◌};
ghost use Rattle.lanes.specs.Lanes.{byte, same, both, minus, on_word, high_at};
ghost use Rattle.lanes.specs.Kinds.{plain, unquoted, bare, inner, digit, gap, space_byte};
ghost use Rattle.lanes.specs.Stops.{Stops, FirstByte};

// The number 1 in each of eight bytes, and the highest bit of each.
const EACH: u64 = 0x0101010101010101;

const HIGHEST: u64 = 0x8080808080808080;

// `x` less `m`, wrapped.
fn minus(x: u64, m: u64) -> u64
    ensures { result ≡ (x + 2 ^ 64 - m) % 2 ^ 64 }
{
    std::num::wrapping_sub_u64(x, m)
}

// The word of eight bytes `b`.
fn each(b: u8) -> u64
    ensures { result ≡ b * 0x0101010101010101 }
{
    b as u64 * EACH
}

// Of eight bytes below 80, the first that is `b` has its highest bit on, and none before it.
fn equal(x: u64, b: u8) -> u64
    ensures { result ≡ on_word (high_at b) x }
{
    minus(x ^ each(b), EACH)
}

// Of eight bytes below 80, the first below `b` has its highest bit on, and none before it.
fn below(x: u64, b: u8) -> u64
    ensures { result ≡ on_word (both minus byte (same b)) x }
{
    minus(x, each(b))
}

// Of eight bytes below 80, the first above `b` has its highest bit on, and none before it.
fn above(x: u64, b: u8) -> u64
    ensures { result ≡ on_word (both minus (same b) byte) x }
{
    minus(each(b), x)
}

// A kind of bytes, of which eight are told at once. A byte from 80 on has its highest bit itself: `| x` tells it, and `& !x` does not.
pub trait Kind {
    // Whether a byte is of the kind.
    ghost kind: { ℕ → Bool };

    // Of eight bytes, those before the first that is not of the kind come back as 0, and that one not.
    fn stops(x: u64) -> u64
        ensures { Stops kind x result };
}

// A byte that is no quote.
pub struct Unquoted;

impl Kind for Unquoted {
    ghost kind = { unquoted };

    fn stops(x: u64) -> u64 {
        equal(x, b'"') & !x & HIGHEST
    }
}

// A byte that is neither a quote nor a backslash.
pub struct Bare;

impl Kind for Bare {
    ghost kind = { bare };

    fn stops(x: u64) -> u64 {
        (equal(x, b'"') | equal(x, b'\\')) & !x & HIGHEST
    }
}

// A byte that stands for itself in a string.
pub struct Plain;

impl Kind for Plain {
    ghost kind = { plain };

    fn stops(x: u64) -> u64 {
        (equal(x, b'"') | equal(x, b'\\') | below(x, 0x20) | x) & HIGHEST
    }
}

// A byte from 2D on that is no closing bracket.
pub struct Inner;

impl Kind for Inner {
    ghost kind = { inner };

    fn stops(x: u64) -> u64 {
        // with 20 on, `]` is `}` too
        (below(x, 0x2D) | equal(x | each(0x20), b'}')) & !x & HIGHEST
    }
}

// A digit.
pub struct Digit;

impl Kind for Digit {
    ghost kind = { digit };

    fn stops(x: u64) -> u64 {
        (below(x, b'0') | above(x, b'9')) & HIGHEST
    }
}

// A byte up to the space.
pub struct Gap;

impl Kind for Gap {
    ghost kind = { gap };

    fn stops(x: u64) -> u64 {
        (above(x, b' ') | x) & HIGHEST
    }
}

// The space.
pub struct Space;

impl Kind for Space {
    ghost kind = { space_byte };

    fn stops(x: u64) -> u64 {
        x ^ each(b' ')
    }
}

// How many bytes of `w` before its first that is not 0; 8 where there is none.
pub fn zero_bytes(w: u64) -> usize
    ensures { FirstByte w result }
{
    (bits::lowest(w) / 8) as usize
}

// Whether a point is among eight bytes. Nothing rests on the answer but how fast a number is read.
pub fn has_point(x: u64) -> bool {
    equal(x, b'.') & !x & HIGHEST != 0
}
