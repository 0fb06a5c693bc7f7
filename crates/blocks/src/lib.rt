// Sorts a block of at most 64 bytes into words of 64 bits, with the facts for the next block.
#![tactic(auto)]

ghost use Rattle.std.specs.Prelude.{◌≡◌, ℕ, ◌+◌, ◌-◌, ◌^◌, ◌<◌, ◌≤◌, false, length};
ghost use Rattle.bits.specs.Bits.{bit};
ghost use Rattle.blocks.specs.Parts.{odd_run, parity, NotBoth, StringsFound, Padded};
ghost use Rattle.blocks.specs.Words.{odd_before};
ghost use Rattle.blocks.specs.Sorted.{Sorted};
ghost use Rattle.blocks.specs.Counts.{counted_of, SortedCounted};

use bits::has;
pub use classifier::BLOCK;
use classifier::classify;

// Words one to four of a block, and the facts that hold after it.
#[repr(C)]
#[derive(Clone, Copy)]
pub struct Words {
    pub quotes: u64,
    pub strings: u64,
    pub opening: u64,
    pub closing: u64,
    pub inside: bool,
    pub odd: bool,
}

// The two facts before a block: whether it begins inside a string, and whether an odd run of backslashes stands just before it.
#[derive(Clone, Copy)]
pub struct Before {
    pub inside: bool,
    pub odd: bool,
}

// The words of a block with the numbers of its opening and closing brackets.
#[derive(Clone, Copy)]
pub struct Counted {
    pub words: Words,
    pub opened: u32,
    pub closed: u32,
}

// The counted words of a block of some bytes. No place has both an opening and a closing bracket.
#[derive(Clone, Copy)]
pub struct CountedBlock {
    pub counted: Counted,
    pub ghost counted_is: { counted ≡ counted_of counted.words },
    pub ghost apart: { NotBoth counted.words.opening counted.words.closing },
}

// The quotes that are real, the places inside strings, and whether an odd run of backslashes is last.
#[derive(Drop)]
struct Strings {
    quotes: u64,
    strings: u64,
    odd: bool,
}

// The last place of a full block.
const LAST: usize = 63;

const BACKSLASH: u8 = b'\\';

// Every bit on.
const ALL: u64 = u64::MAX;

// Every even bit on.
const EVEN: u64 = 0x5555555555555555;

// Bit i is on where the bits 0 to i of x are odd in number.
fn prefix_xor(x: u64) -> u64
    ensures { (i : ℕ) → i < 64 → bit i result ≡ parity false (λ j. bit j x) (i + 1) }
{
    let by2 = x ^ (x << 1);
    let by4 = by2 ^ (by2 << 2);
    let by8 = by4 ^ (by4 << 4);
    let by16 = by8 ^ (by8 << 8);
    let by32 = by16 ^ (by16 << 16);
    by32 ^ (by32 << 32)
}

// Bit i is on where an odd run of backslashes stands just before place i: the carries of one sum say which runs are odd.
fn escaped(backslashes: u64, odd: bool) -> u64
    ensures { (i : ℕ) → i < 64 → bit i result ≡ odd_run odd (λ j. bit j backslashes) i }
{
    let first = odd as u64;
    let own = backslashes & !first;
    let starts = !(own << 1) & EVEN;
    let sum = starts.wrapping_add(own);
    sum ^ EVEN ^ (backslashes | first)
}

// The same bit in every place.
fn spread(b: bool) -> u64
    ensures { (i : ℕ) → i < 64 → bit i result ≡ b }
{
    if b { ALL } else { 0 }
}

// Takes quotes that no odd run escapes, and the parity of these. Where neither quote nor backslash stands, a string or none goes on.
fn find_strings(quotes: u64, backslashes: u64, before: Before) -> Strings
    ensures { StringsFound quotes backslashes before.inside before.odd result.quotes result.strings result.odd }
{
    if quotes | backslashes == 0 {
        return Strings {
            quotes: 0,
            strings: spread(before.inside),
            odd: false,
        };
    }
    let e = escaped(backslashes, before.odd);
    let real = quotes & !e;
    Strings {
        quotes: real,
        strings: prefix_xor(real) ^ spread(before.inside),
        odd: has(backslashes & !e, LAST),
    }
}

// The words with the numbers of their brackets.
pub fn count(words: Words) -> Counted
    ensures { result ≡ counted_of words }
{
    let opened = words.opening.count_ones();
    let closed = words.closing.count_ones();
    Counted {
        words,
        opened,
        closed,
    }
}

// Sorts the first 64 bytes of a part that has them, and counts their brackets: those outside strings.
pub fn sort_full(rest: &[u8], before: Before) -> CountedBlock
    requires { 64 ≤ length rest.now }
    ensures { SortedCounted rest.now before.inside before.odd result.counted }
{
    let block = rest.first_chunk::<BLOCK>().unwrap();
    let c = classify(block);
    let k = find_strings(c.quotes, c.backslashes, before);
    let outside = !k.strings;
    let words = Words {
        quotes: k.quotes,
        strings: k.strings,
        opening: c.opening & outside,
        closing: c.closing & outside,
        inside: has(k.strings, LAST),
        odd: k.odd,
    };
    CountedBlock {
        counted: count(words),
    }
}

// The bytes of a part shorter than a block, with zeros behind them.
fn padded(rest: &[u8]) -> [u8; BLOCK]
    requires { length rest.now < 64 }
    ensures { Padded rest.now result }
{
    let mut block = [0; BLOCK];
    block[..rest.len()].copy_from_slice(rest);
    block
}

// A bit for each of n bytes.
fn size_mask(n: usize) -> u64
    requires { n < 64 }
    ensures { result ≡ 2 ^ n - 1 }
{
    (1u64 << n) - 1
}

// Whether an odd run of backslashes ends a part, where `odd` says so of the bytes before it.
fn odd_after(rest: &[u8], odd: bool) -> bool
    ensures { result ≡ odd_before odd rest.now (length rest.now) }
{
    rest.iter()
        .fold(odd, |run, &byte| byte == BACKSLASH && !run)
}

// Sorts a part shorter than a block: padded, and the words cut to its bytes. The zeros behind it hide the run at its end.
fn sort_short(rest: &[u8], before: Before) -> Words
    requires { length rest.now < 64 }
    ensures { Sorted rest.now before.inside before.odd result }
{
    let full = sort_full(&padded(rest), before);
    let w = full.counted.words;
    let mask = size_mask(rest.len());
    Words {
        quotes: w.quotes & mask,
        strings: w.strings & mask,
        opening: w.opening & mask,
        closing: w.closing & mask,
        inside: w.inside,
        odd: odd_after(rest, before.odd),
    }
}

// Sorts the block at the front of the rest of a record, for all bytes: words one to four, and the two facts for the next block.
// An empty rest gives words of 0 and both facts back.
pub fn sort_block(rest: &[u8], inside: bool, odd: bool) -> Words
    ensures { Sorted rest.now inside odd result }
{
    let before = Before { inside, odd };
    match rest.first_chunk::<BLOCK>() {
        Some(block) => sort_full(block, before).counted.words,
        None => sort_short(rest, before),
    }
}

// The same with the numbers of its brackets.
pub fn sort_counted(rest: &[u8], before: Before) -> CountedBlock
    ensures { SortedCounted rest.now before.inside before.odd result.counted }
{
    CountedBlock {
        counted: count(sort_block(rest, before.inside, before.odd)),
    }
}
