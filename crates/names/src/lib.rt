// Names by their code points: a query's name written decoded, and a record's name compared with it.
#![tactic(auto)]

ghost use Rattle.std.specs.Prelude.{◌≡◌, [], ◌∷◌, ◌+◌, ◌≤◌, ◌<◌, length};
ghost use Rattle.encoding.specs.Bytes.{same_numbers};
ghost use Rattle.encoding.specs.Points.{utf8};
ghost use Rattle.encoding.specs.Unescape.{unescaped};
ghost use Rattle.names.specs.Names.{Written, After};

use escapes::{BACKSLASH, escape_at, in_utf8};

// How many bytes a query's names take at most.
pub const NAMES_SIZE: usize = 1024;

// The names of a query, decoded: each begins at the place in the query where it is written.
pub type Names = [u8; NAMES_SIZE];

// What is left of a name after `b`, where it begins with that.
fn after_byte(name: &[u8], b: u8) -> Option<&[u8]>
    ensures { After name.now (b ∷ []) result }
{
    let (first, rest) = name.split_first()?;
    (*first == b).then_some(rest)
}

// The same for a code point in UTF-8.
fn after_point(name: &[u8], point: u32) -> Option<&[u8]>
    requires { point < 0x110000 }
    ensures { After name.now (utf8 point []) result }
{
    let code = in_utf8(point);
    name.strip_prefix(code.as_bytes())
}

// The same for what is written, once its escapes are decoded.
fn after_written<'a>(name: &'a [u8], written: &[u8]) -> Option<&'a [u8]>
    ensures { After name.now (unescaped written.now) result }
{
    let mut rest = name;
    let mut j = 0;
    while j < written.len() {
        let b = written[j];
        let escape = b == BACKSLASH;
        if escape {
            let e = escape_at(&written[j..]);
            rest = after_point(rest, e.point)?;
            j += e.size;
        } else {
            rest = after_byte(rest, b)?;
            j += 1;
        }
    }
    Some(rest)
}

// Whether a name of a query is a record's name, as that is written.
#[tactic(auto, using(crate::proofs::Compare::same_bytes))]
pub fn same_written(name: &[u8], written: &[u8]) -> bool
    ensures { result ≡ same_numbers name.now written.now }
{
    name == written
}

// Whether a name of a query has the code points of a record's name, whose escapes are decoded on the way.
#[tactic(auto, using(crate::proofs::Compare::same_by, crate::proofs::Compare::other_by))]
pub fn same_decoded(name: &[u8], written: &[u8]) -> bool
    ensures { result ≡ same_numbers name.now (unescaped written.now) }
{
    match after_written(name, written) {
        Some(rest) => rest.is_empty(),
        None => false,
    }
}

// Writes bytes at `at`, and gives the place after them.
fn put(names: &mut [u8], at: usize, bytes: &[u8]) -> usize
    requires { at + length bytes.now ≤ length names.old }
    ensures { Written names.old at bytes.now names.new result }
{
    let end = at + bytes.len();
    names[at..end].copy_from_slice(bytes);
    end
}

// Writes a name of a query decoded, in UTF-8, at `at`, and gives the place after it. What is decoded is never longer than what was written.
pub fn write_name(name: &[u8], names: &mut [u8], at: usize) -> usize
    requires { at + length name.now ≤ length names.old }
    ensures written { Written names.old at (unescaped name.now) names.new result }
    ensures upper_bound { result ≤ at + length name.now }
{
    let mut end = at;
    let mut j = 0;
    while j < name.len() {
        let b = name[j];
        if b == BACKSLASH {
            let e = escape_at(&name[j..]);
            let code = in_utf8(e.point);
            end = put(names, end, code.as_bytes());
            j += e.size;
        } else {
            end = put(names, end, &[b]);
            j += 1;
        }
    }
    end
}
