// Literal names (RFC 8259 section 3).
ghost use Rattle.std.specs.Prelude.{◌≤◌, ◌<◌, length, get_or};
ghost use Rattle.encoding.specs.Reads.{Reads};
ghost use Rattle.json_text.specs.Machine.{after};
ghost use Rattle.json_text.specs.Led.{Led};
ghost use Rattle.scalars.specs.Scalars.{Bare, Scalar};
ghost use Rattle.scalars.specs.Words.{letters_due};

use crate::byte_at;
use encoding::{Dead, Read};

// Reads the letters of a literal name that follow its first. Refused at the first other byte.
fn letters_end(s: &[u8], at: usize, letters: &[u8]) -> Read
    requires { at ≤ length s.now }
    ensures { Reads (Led s.now at (letters_due letters.now) after) result }
{
    for (i, letter) in letters.iter().enumerate() {
        let place = at + i;
        if !byte_at(s, place, *letter) {
            return Err(Dead { at: place });
        }
    }
    Ok(at + letters.len())
}

// Reads a literal name.
pub fn word_end(s: &[u8], at: usize) -> Read
    requires { (at < length s.now) × Bare (get_or s.now at 0) × (0x39 < get_or s.now at 0) }
    ensures { Reads (Scalar s.now at) result }
{
    match s[at] {
        b't' => letters_end(s, at + 1, b"rue"),
        b'n' => letters_end(s, at + 1, b"ull"),
        b'f' => letters_end(s, at + 1, b"alse"),
        _ => Err(Dead { at }),
    }
}
