// Numbers and literal names of the check of a record (RFC 8259 sections 3 and 6), each read from where a value is due up to its end.
#![tactic(auto)]

ghost use Rattle.std.specs.Prelude.{[], ◌∷◌, ◌<◌, length, get_or};
ghost use Rattle.encoding.specs.Reads.{Reads};
ghost use Rattle.scalars.specs.Among.{AmongAt};
ghost use Rattle.scalars.specs.Scalars.{Bare, Scalar};

use encoding::Read;

mod numbers;
mod words;

// Whether the byte `n` stands at `at`.
pub fn byte_at(s: &[u8], at: usize, n: u8) -> bool
    ensures { AmongAt (n ∷ []) s.now at result }
{
    at < s.len() && s[at] == n
}

// Reads a number or a literal name, where a byte stands that begins neither a string nor a container.
pub fn scalar_end(s: &[u8], at: usize) -> Read
    requires { (at < length s.now) × Bare (get_or s.now at 0) }
    ensures { Reads (Scalar s.now at) result }
{
    if s[at] > b'9' {
        return words::word_end(s, at);
    }
    numbers::number_end(s, numbers::minus_end(s, at))
}
