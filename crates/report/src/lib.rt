// What the program `picklist` prints, written into a lent buffer.
#![tactic(auto)]

ghost use Rattle.report.specs.Output.{picklist_output};
ghost use Rattle.text.specs.Put.{Printed};

use lines::input::parts;
use lines::output::{write_answer, write_too_long};
use woodcrock::list_jumping;

// The size of a buffer that holds every text.
pub const OUTPUT_SIZE: usize = lines::OUTPUT_SIZE;

// The most bytes of input.
const MAX_INPUT: usize = 65536;

// The numbers in the list: two for each of 256 pairs.
const LIST_SIZE: usize = 512;

// Writes what `picklist` prints for the bytes of its input at the start of the buffer, and answers how many bytes that is. Every byte
// beyond keeps what it held.
pub fn print_picklist(input: &[u8], out: &mut [u8; OUTPUT_SIZE]) -> usize
    ensures { Printed (picklist_output input.now) out.old out.new result }
{
    if input.len() > MAX_INPUT {
        return write_too_long(out);
    }
    let (query, record) = parts(input);
    let mut list = [0u32; LIST_SIZE];
    let answer = list_jumping(query, record, &mut list);
    write_answer(out, answer.ground, answer.place, answer.pairs, &list)
}
