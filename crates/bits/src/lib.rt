// Bits of 64-bit words: the lowest that is on, one bit, and eight bytes loaded as a word.

#![tactic(auto)]

ghost use Rattle.std.specs.Prelude.{ℕ, ◌+◌, ◌<◌, ◌≤◌, ◌||◌, ◌&&◌, eqb, ◌≡◌, length};
ghost use Rattle.bits.specs.Bits.{bit, Lowest};
ghost use Rattle.bits.specs.Word.{Loaded};

// The place of the lowest bit that is on, or 64 where none is.
pub fn lowest(w: u64) -> u32
    ensures { Lowest 64 w result }
{
    w.trailing_zeros()
}

// Whether bit i is on.
pub fn has(w: u64, i: usize) -> bool
    requires { i < 64 }
    ensures { result ≡ bit i w }
{
    w >> i & 1 == 1
}

// The eight bytes from `i` on, the first lowest.
pub fn load8(s: &[u8], i: usize) -> u64
    requires { i + 8 ≤ length s.now }
    ensures { Loaded 8 s.now i result }
{
    let bytes: [u8; 8] = s[i..i + 8].try_into().unwrap();
    u64::from_le_bytes(bytes)
}

// The 16 bits of `mask`, and bit `n` too where `on`.
pub fn with_bit(mask: u16, n: usize, on: bool) -> u16
    requires { n < 16 }
    ensures { (i : ℕ) → bit i result ≡ (bit i mask || (on && eqb i n)) }
{
    if on {
        return mask | 1 << n;
    }
    mask
}
