// The escapes of a name: how many bytes each has, the code point that it stands for, and that in UTF-8.
#![tactic(auto)]

ghost use Rattle.std.specs.Prelude.{◌≡◌, [], ◌+◌, ◌<◌, ◌%◌, length, get_or};
ghost use Rattle.encoding.specs.Points.{utf8};
ghost use Rattle.encoding.specs.Unescape.{hex_value, short_point_of, unit_at};
ghost use Rattle.escapes.specs.Escapes.{EscapeAt, LowHalf, PairBehind};

use std::marker::Model;

// The byte that an escape begins with.
pub const BACKSLASH: u8 = 0x5C;

const SMALL_U: u8 = 0x75;

// A digit's byte, less this, is what the digit stands for: from A to F, and from a to f.
const UPPER: u8 = 0x37;

const LOWER: u8 = 0x57;

// How many bytes an escape by a letter has, and one by four digits. A surrogate pair is two by digits.
const LETTER_SIZE: usize = 2;

const DIGITS_SIZE: usize = 6;

// Half of a surrogate pair holds ten bits of a code point. The bits above them are those of a high half, or those of a low one.
const TEN_BITS: u32 = 0x400;

const HIGH: u32 = 0x36;

const LOW: u32 = 0x37;

// The least code point that is written as a pair.
const PAIRED: u32 = 0x10000;

// What an escape stands for, and how many bytes it has.
#[derive(Drop)]
pub struct Escape {
    pub point: u32,
    pub size: usize,
}

// In each function below, an escape that the bytes break off goes on with zeros.

// What a hexadecimal digit stands for, and some number below 16 for any other byte.
#[tactic(auto, unfolding(encoding::specs::Unescape::hex_value))]
fn hex_value(b: u8) -> u32
    ensures { (result ≡ hex_value b) × (result < 16) }
{
    match b {
        ..=b'9' => b.saturating_sub(b'0') as u32,
        ..=b'F' => b.saturating_sub(UPPER) as u32,
        ..=b'f' => b.saturating_sub(LOWER) as u32,
        _ => 0,
    }
}

// What the digit at `k` stands for.
#[tactic(auto, unfolding(encoding::specs::Unescape::hex_value))]
fn digit_at(written: &[u8], k: usize) -> u32
    ensures { (result ≡ hex_value (get_or written.now k 0)) × (result < 16) }
{
    match written.get(k) {
        Some(&b) => hex_value(b),
        None => 0,
    }
}

// The number of the four digits after a backslash and a `u`.
#[tactic(auto, unfolding(encoding::specs::Unescape::unit_at))]
fn unit_at(written: &[u8]) -> u32
    ensures { result ≡ unit_at written.now }
{
    let x = digit_at(written, 2);
    let y = digit_at(written, 3);
    let z = digit_at(written, 4);
    let w = digit_at(written, 5);
    x * 4096 + y * 256 + z * 16 + w
}

// The low half of a surrogate pair that an escape at the start stands for.
#[tactic(auto, using(crate::proofs::Escapes::low_none, crate::proofs::Escapes::low_some))]
fn low_half(written: &[u8]) -> Option<u32>
    ensures { LowHalf written.now result }
{
    if !written.starts_with(b"\\u") {
        return None;
    }
    let unit = unit_at(written);
    (unit / TEN_BITS == LOW).then_some(unit)
}

// What a backslash and `b` stand for, where `b` is no `u`.
#[tactic(auto, unfolding(encoding::specs::Unescape::short_point_of))]
fn short_point(b: u8) -> u8
    ensures { result ≡ short_point_of b }
{
    match b {
        b'b' => 0x08,
        b'f' => 0x0C,
        b'n' => 0x0A,
        b'r' => 0x0D,
        b't' => 0x09,
        _ => b,
    }
}

// The low half right behind, where the number of the digits is a high half.
fn low_behind(written: &[u8], unit: u32) -> Option<u32>
    requires { unit ≡ unit_at written.now }
    ensures { PairBehind written.now result }
{
    if unit / TEN_BITS != HIGH {
        return None;
    }
    low_half(written.get(DIGITS_SIZE..)?)
}

// The escape that the bytes begin with.
pub fn escape_at(written: &[u8]) -> Escape
    ensures { EscapeAt written.now result.point result.size }
{
    let Some(&letter) = written.get(1) else {
        return Escape {
            point: 0,
            size: LETTER_SIZE,
        };
    };
    if letter != SMALL_U {
        return Escape {
            point: short_point(letter) as u32,
            size: LETTER_SIZE,
        };
    }
    let unit = unit_at(written);
    match low_behind(written, unit) {
        Some(low) => Escape {
            point: PAIRED + unit % TEN_BITS * TEN_BITS + low % TEN_BITS,
            size: 2 * DIGITS_SIZE,
        },
        None => Escape {
            point: unit,
            size: DIGITS_SIZE,
        },
    }
}

// A code point in UTF-8: the first so many of four bytes.
#[derive(Drop)]
pub struct Utf8 {
    bytes: [u8; 4],
    size: usize,
}

impl Model for Utf8 {
    ghost use Rattle.std.specs.Prelude.{List, ℕ, ◌≤◌, take};

    ghost Value = { List ℕ };

    ghost view = { λ u. take u.size u.bytes };

    ghost invariant = { λ u. u.size ≤ 4 };
}

impl Utf8 {
    pub fn as_bytes(&self) -> &[u8]
        ensures { result.now ≡ self.now }
    {
        &self.bytes[..self.size]
    }

    pub fn len(&self) -> usize
        ensures { result ≡ length self.now }
    {
        self.size
    }
}

// A byte after the first, with the last six of these bits.
fn tail(bits: u32) -> u8
    ensures { result ≡ 0x80 + bits % 64 }
{
    (0x80 + bits % 64) as u8
}

// A code point in UTF-8.
#[tactic(auto, unfolding(encoding::specs::Points::utf8))]
pub fn in_utf8(point: u32) -> Utf8
    requires { point < 0x110000 }
    ensures { result ≡ utf8 point [] }
{
    if point < 0x80 {
        return Utf8 {
            bytes: [point as u8, 0, 0, 0],
            size: 1,
        };
    }
    if point < 0x800 {
        return Utf8 {
            bytes: [(0xC0 + point / 64) as u8, tail(point), 0, 0],
            size: 2,
        };
    }
    if point < 0x10000 {
        return Utf8 {
            bytes: [
                (0xE0 + point / 4096) as u8,
                tail(point / 64),
                tail(point),
                0,
            ],
            size: 3,
        };
    }
    Utf8 {
        bytes: [
            (0xF0 + point / 262144) as u8,
            tail(point / 4096),
            tail(point / 64),
            tail(point),
        ],
        size: 4,
    }
}
