// The class of a byte, and code points by the rows of UTF-8.
#![tactic(auto)]

ghost use Rattle.std.specs.Prelude.{◌≡◌, ◌≤◌, ◌<◌, length, get_or, Some};
ghost use Rattle.encoding.specs.Class.{class_of};
ghost use Rattle.encoding.specs.CodePoint.{due, decoding, Scanned};
ghost use Rattle.encoding.specs.Reads.{Reads};
ghost use Rattle.encoding.specs.RowTable.{Narrow, RowFor};
ghost use Rattle.encoding.specs.WideRun.{WideRun};

mod refusals;
mod tables;

pub use refusals::{Ground, Refusal};
pub use tables::{ROWS, Row};

// Classes of bytes that are asked for by their number: brackets, the comma, blanks. A class is a number because document 01 has a table of 256
// numbers.
pub const OPENING: u8 = 1;

pub const CLOSING: u8 = 2;

pub const COMMA: u8 = 4;

pub const BLANK: u8 = 7;

// The bounds of the bytes after the second.
const TAIL_LOW: u8 = 0x80;

const TAIL_HIGH: u8 = 0xBF;

// The first byte with which what is read cannot go on, or the length where the bytes end too soon: its place.
#[derive(Clone, Copy)]
pub struct Dead {
    pub at: usize,
}

// What a reader of bytes answers: the place after what it read, or the dead byte.
pub type Read = Result<usize, Dead>;

// The class of `b`, by the table of classes.
pub fn class(b: u8) -> u8
    ensures { result ≡ class_of b }
{
    tables::CLASSES[b as usize]
}

// Whether `b` is a code point of one byte, by the first row.
pub fn narrow(b: u8) -> bool
    ensures { Narrow b result }
{
    let first = ROWS[0];
    first.low <= b && b <= first.high
}

// The row, after the first, that has `b` as a first byte. The rows ascend: no row after one that ends above `b` has it.
fn row_of(b: u8) -> Option<Row>
    ensures { RowFor b result }
{
    for row in &ROWS[1..] {
        if b <= row.high {
            if row.low <= b {
                return Some(*row);
            }
            return None;
        }
    }
    None
}

// Reads `count` bytes from `from` on, the first of them from `low` to `high` and the others from 80 to BF.
fn rest_of(s: &[u8], from: usize, low: u8, high: u8, count: u8) -> Read
    requires { from ≤ length s.now }
    ensures { Reads (Scanned (due low high count) s.now from) result }
{
    let mut i = from;
    let mut lo = low;
    let mut hi = high;
    for _ in 0..count {
        if i >= s.len() || s[i] < lo || s[i] > hi {
            return Err(Dead { at: i });
        }
        i += 1;
        lo = TAIL_LOW;
        hi = TAIL_HIGH;
    }
    Ok(i)
}

// Reads a code point at `at` by a row that has the byte there as a first byte.
fn after_first(s: &[u8], at: usize, row: Row) -> Read
    requires { (at < length s.now) × RowFor (get_or s.now at 0) (Some row) }
    ensures { Reads (Scanned decoding s.now at) result }
{
    rest_of(s, at + 1, row.second_low, row.second_high, row.bytes - 1)
}

// Reads one code point from 80 (hexadecimal) on at `at`, by the rows of UTF-8. Any byte may stand there.
pub fn code_point(s: &[u8], at: usize) -> Read
    ensures { Reads (Scanned decoding s.now at) result }
{
    if at >= s.len() {
        return Err(Dead { at });
    }
    let Some(row) = row_of(s[at]) else {
        return Err(Dead { at });
    };
    after_first(s, at, row)
}

// Reads the code points from 80 (hexadecimal) on that stand one after another from `at` on, by the rows of UTF-8, up to the first byte below
// 80 or the end of the bytes.
pub fn code_points(s: &[u8], at: usize) -> Read
    ensures { Reads (WideRun s.now at) result }
{
    let mut i = at;
    while i < s.len() {
        if narrow(s[i]) {
            return Ok(i);
        }
        let Some(row) = row_of(s[i]) else {
            return Err(Dead { at: i });
        };
        i = after_first(s, i, row)?;
    }
    Ok(i)
}
