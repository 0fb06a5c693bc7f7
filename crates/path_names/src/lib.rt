// A record's name as it stands between the quotes of a normalized path: how long it is there, whether it has half of a surrogate pair, and
// its bytes.
#![tactic(auto)]

ghost use Rattle.std.specs.Prelude.{◌≡◌, [], ◌*◌, ◌≤◌, ◌<◌, length};
ghost use Rattle.encoding.specs.Unescape.{unescaped};
ghost use Rattle.json_text.specs.Verdict.{max_bytes};
ghost use Rattle.paths.specs.Answer.{is_half_of};
ghost use Rattle.paths.specs.Rendered.{hex_lower_of};
ghost use Rattle.path_names.specs.Escaped.{put_escaped, half_escaped};
ghost use Rattle.path_names.specs.Pieces.{point_piece, byte_piece, control_piece, Letter};
ghost use Rattle.text.specs.Put.{Room, Written};

use escapes::{BACKSLASH, escape_at, in_utf8};
use text::{write_byte, write_word};

// The code points below this are controls.
const SPACE: u32 = 0x20;

// The bytes from this on belong to code points of several bytes.
const SEVERAL_BYTES: u8 = 0x80;

// How many bytes an escape by a letter has, and one by four digits.
const LETTER_SIZE: usize = 2;

const DIGITS_SIZE: usize = 6;

// The halves of surrogate pairs.
const FIRST_HALF: u32 = 0xD800;

const LAST_HALF: u32 = 0xDFFF;

// A digit from a to f, less this, is what it stands for.
const LOWER: u8 = 0x57;

// Whether a number is half of a surrogate pair.
fn is_half(point: u32) -> bool
    ensures { result ≡ is_half_of point }
{
    point >= FIRST_HALF && point <= LAST_HALF
}

// The byte behind the backslash where a code point is written as an escape of two bytes.
fn escape_letter(point: u32) -> Option<u8>
    ensures { Letter point result }
{
    match point {
        0x08 => Some(b'b'),
        0x09 => Some(b't'),
        0x0A => Some(b'n'),
        0x0C => Some(b'f'),
        0x0D => Some(b'r'),
        0x27 => Some(b'\''),
        0x5C => Some(b'\\'),
        _ => None,
    }
}

// How many bytes a code point is written as in a path.
#[tactic(auto, using(crate::specs::PiecesLaws::pieces), unfolding(crate::specs::Pieces::control_piece))]
fn point_size(point: u32) -> usize
    requires { point < 0x110000 }
    ensures { (result ≡ length (point_piece point)) × (result ≤ 6) }
{
    match escape_letter(point) {
        Some(_) => LETTER_SIZE,
        None if point < SPACE => DIGITS_SIZE,
        None => in_utf8(point).len(),
    }
}

// The same for a byte of a decoded name.
#[tactic(auto, using(crate::specs::PiecesLaws::pieces))]
fn byte_size(b: u8) -> usize
    ensures { (result ≡ length (byte_piece b)) × (result ≤ 6) }
{
    if b < SEVERAL_BYTES {
        return point_size(b as u32);
    }
    1
}

// How many bytes a name has in a path, and whether half of a surrogate pair is among its code points. Either is promised of any name.
#[derive(Drop)]
pub struct NameSize {
    pub half: bool,
    pub size: usize,
}

// The size of a record's name, once its escapes are decoded.
pub fn name_size(name: &[u8]) -> NameSize
    requires { length name.now ≤ max_bytes }
    ensures half_value { result.half ≡ half_escaped name.now }
    ensures size_value { result.size ≡ length (put_escaped (unescaped name.now) []) }
    ensures size_bound { result.size ≤ 6 * max_bytes }
{
    let mut half = false;
    let mut size: usize = 0;
    let mut i = 0;
    while i < name.len() {
        let b = name[i];
        if b == BACKSLASH {
            let e = escape_at(&name[i..]);
            half |= is_half(e.point);
            size += point_size(e.point);
            i += e.size;
        } else {
            size += byte_size(b);
            i += 1;
        }
    }
    NameSize { half, size }
}

// A hexadecimal digit in lower case.
#[tactic(auto, unfolding(paths::specs::Rendered::hex_lower_of))]
fn hex_lower(digit: u8) -> u8
    requires { digit < 16 }
    ensures { result ≡ hex_lower_of digit }
{
    if digit < 10 {
        return b'0' + digit;
    }
    LOWER + digit
}

// Each function below writes into `out` from `at` on, and gives the place after what it wrote.

// Writes a control by its number in four digits.
#[tactic(auto, unfolding(crate::specs::Pieces::control_piece))]
fn write_control(out: &mut [u8], at: usize, point: u8) -> usize
    requires { (point < 0x20) × Room (control_piece point) at out.old }
    ensures { Written (control_piece point) at out.old out.new result }
{
    let (third, last) = (b'0' + point / 16, hex_lower(point % 16));
    write_word(out, at, &[b'\\', b'u', b'0', b'0', third, last])
}

// Writes a code point as it stands in a path.
#[tactic(auto, using(crate::specs::PiecesLaws::pieces))]
fn write_point(out: &mut [u8], at: usize, point: u32) -> usize
    requires { (point < 0x110000) × Room (point_piece point) at out.old }
    ensures { Written (point_piece point) at out.old out.new result }
{
    match escape_letter(point) {
        Some(letter) => write_word(out, at, &[BACKSLASH, letter]),
        None if point < SPACE => write_control(out, at, point as u8),
        None => write_word(out, at, in_utf8(point).as_bytes()),
    }
}

// Writes a byte of a decoded name as it stands in a path.
#[tactic(auto, using(crate::specs::PiecesLaws::pieces))]
fn write_rendered_byte(out: &mut [u8], at: usize, b: u8) -> usize
    requires { Room (byte_piece b) at out.old }
    ensures { Written (byte_piece b) at out.old out.new result }
{
    if b < SEVERAL_BYTES {
        return write_point(out, at, b as u32);
    }
    write_byte(out, at, b)
}

// Writes a record's name, once its escapes are decoded.
pub fn write_name(name: &[u8], out: &mut [u8], at: usize) -> usize
    requires { Room (put_escaped (unescaped name.now) []) at out.old }
    ensures { Written (put_escaped (unescaped name.now) []) at out.old out.new result }
{
    let mut end = at;
    let mut i = 0;
    while i < name.len() {
        let b = name[i];
        if b == BACKSLASH {
            let e = escape_at(&name[i..]);
            end = write_point(out, end, e.point);
            i += e.size;
        } else {
            end = write_rendered_byte(out, end, b);
            i += 1;
        }
    }
    end
}
