// Finds the quotes, backslashes and brackets among 64 bytes: a word for each class, with a bit for each byte.
#![tactic(auto)]

ghost use Rattle.std.specs.Prelude.{◌≡◌, ℕ, ◌+◌, ◌*◌, ◌/◌, ◌%◌, ◌<◌};
ghost use Rattle.bits.specs.Bits.{bit};
ghost use Rattle.classifier.specs.Packed.{Swapped, FourFlags, PackedClasses, Unpacked, Classified};

use bits::load8;

// The bytes of a full block.
pub const BLOCK: usize = 64;

// The places of the bytes that the words are made of.
#[derive(Drop)]
pub struct Classes {
    pub quotes: u64,
    pub backslashes: u64,
    pub opening: u64,
    pub closing: u64,
}

// The flags of a block for each class, four in a byte: byte i has those of the bytes i, i + 16, i + 32 and i + 48.
#[derive(Drop)]
struct Flags {
    quotes: [u8; 16],
    backslashes: [u8; 16],
    opening: [u8; 16],
    closing: [u8; 16],
}

const QUOTE: u8 = b'"';

const BACKSLASH: u8 = b'\\';

const OPENING: u8 = b'{';

const CLOSING: u8 = b'}';

// The bit that makes a square bracket the brace of its kind.
const BRACE: u8 = 32;

// The bits under the mask change places with those `k` places up.
fn swap(x: u64, k: u32, mask: u64) -> u64
    requires { k < 64 }
    ensures { Swapped k mask x result }
{
    let moved = (x ^ (x >> k)) & mask;
    x ^ moved ^ (moved << k)
}

// Eight rows of eight bits turned into columns: single bits change places, then pairs, then fours.
fn transpose(x: u64) -> u64
    ensures { (i : ℕ) → i < 64 → bit i result ≡ bit (8 * (i % 8) + i / 8) x }
{
    let singles = swap(x, 7, 0x00aa00aa00aa00aa);
    let pairs = swap(singles, 14, 0x0000cccc0000cccc);
    swap(pairs, 28, 0x00000000f0f0f0f0)
}

// Which of four bytes `is` tells, as flags in one byte, at its even places. They come one by one, because the compiler joins an array of
// four bytes into one number and takes it apart again for each flag.
fn four<F: Fn(u8) -> bool>(a: u8, b: u8, c: u8, d: u8, is: F) -> u8
    requires { F.IsAlwaysCallable is }
    ensures { FourFlags (F.post is) a b c d result }
{
    is(a) as u8 | (is(b) as u8) << 2 | (is(c) as u8) << 4 | (is(d) as u8) << 6
}

// The flags of a block.
fn pack(s: &[u8; BLOCK]) -> Flags
    ensures { PackedClasses s.now result.quotes result.backslashes result.opening result.closing 16 }
{
    let mut m = Flags {
        quotes: [0; 16],
        backslashes: [0; 16],
        opening: [0; 16],
        closing: [0; 16],
    };
    for i in 0..16 {
        let a = s[i];
        let b = s[i + 16];
        let c = s[i + 32];
        let d = s[i + 48];
        m.quotes[i] = four(a, b, c, d, |byte| byte == QUOTE);
        m.backslashes[i] = four(a, b, c, d, |byte| byte == BACKSLASH);
        m.opening[i] = four(a, b, c, d, |byte| byte | BRACE == OPENING);
        m.closing[i] = four(a, b, c, d, |byte| byte | BRACE == CLOSING);
    }
    m
}

// The word of packed flags: the first eight bytes have its even rows, the next eight its odd rows.
fn word(m: &[u8; 16]) -> u64
    ensures { Unpacked m.now result }
{
    let even = load8(m, 0);
    let odd = load8(m, 8);
    transpose(even | (odd << 1))
}

// The places of quotes, backslashes and brackets in a block.
pub fn classify(s: &[u8; BLOCK]) -> Classes
    ensures { Classified s.now result.quotes result.backslashes result.opening result.closing }
{
    let m = pack(s);
    Classes {
        quotes: word(&m.quotes),
        backslashes: word(&m.backslashes),
        opening: word(&m.opening),
        closing: word(&m.closing),
    }
}
