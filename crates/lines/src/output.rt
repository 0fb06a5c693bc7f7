// The lines of the text for an answer, each written into a buffer at a place. Each function answers the place after what it wrote, and
// leaves every other byte as it was.
ghost use Rattle.std.specs.Prelude.{◌∷◌, [], ◌*◌, ◌≤◌, length};
ghost use Rattle.text.specs.Decimal.{decimal};
ghost use Rattle.lines.specs.Lines.{max_pairs, line, pair_lines, matches, refusal, too_long, report};
ghost use Rattle.text.specs.Put.{Room, Written, Printed};

use crate::{FEED, OUTPUT_SIZE};
use text::{write_field, write_word};

const SPACE: u8 = b' ';

// Writes a line of three numbers.
fn write_line(out: &mut [u8], at: usize, number: u32, first: u32, end: u32) -> usize
    requires { Room (line (decimal number) (decimal first ∷ decimal end ∷ [])) at out.old }
    ensures { Written (line (decimal number) (decimal first ∷ decimal end ∷ [])) at out.old out.new result }
{
    let second = write_field(out, at, number, SPACE);
    let third = write_field(out, second, first, SPACE);
    write_field(out, third, end, FEED)
}

// Writes a line for each of the first pairs of a list.
fn write_pairs(out: &mut [u8], at: usize, pairs: u32, list: &[u32]) -> usize
    requires pairs_in_bounds { pairs * 2 ≤ length list.now }
    requires room { Room (pair_lines 0 pairs list.now) at out.old }
    ensures { Written (pair_lines 0 pairs list.now) at out.old out.new result }
{
    let mut end = at;
    for i in 0..pairs {
        let pair = i as usize * 2;
        end = write_line(out, end, i + 1, list[pair], list[pair + 1]);
    }
    end
}

// Writes the line of a refusal.
fn write_refusal(out: &mut [u8], ground: u32, place: u32) -> usize
    requires { Room (refusal ground place) 0 out.old }
    ensures { Written (refusal ground place) 0 out.old out.new result }
{
    let first = write_word(out, 0, b"refused ");
    let second = write_field(out, first, ground, SPACE);
    write_field(out, second, place, FEED)
}

// Writes the line with the number of pairs, and a line for each of them.
fn write_matches(out: &mut [u8], pairs: u32, list: &[u32]) -> usize
    requires pairs_in_bounds { pairs * 2 ≤ length list.now }
    requires room { Room (matches pairs list.now) 0 out.old }
    ensures { Written (matches pairs list.now) 0 out.old out.new result }
{
    let first = write_word(out, 0, b"matches ");
    let second = write_field(out, first, pairs, FEED);
    write_pairs(out, second, pairs, list)
}

// Writes the text for an answer at the start of the buffer, and answers its length.
pub fn write_answer(
    out: &mut [u8; OUTPUT_SIZE],
    ground: u32,
    place: u32,
    pairs: u32,
    list: &[u32],
) -> usize
    requires pairs_le_max_pairs { pairs ≤ max_pairs }
    requires pairs_in_bounds { pairs * 2 ≤ length list.now }
    ensures { Printed (report ground place pairs list.now) out.old out.new result }
{
    if ground != 0 {
        return write_refusal(out, ground, place);
    }
    write_matches(out, pairs, list)
}

// Writes the text for an input over the limit at the start of the buffer, and answers its length.
pub fn write_too_long(out: &mut [u8; OUTPUT_SIZE]) -> usize
    ensures { Printed too_long out.old out.new result }
{
    write_word(out, 0, b"too long\n")
}
