// The normalized path of the node that begins at an offset of a record, written into a lent buffer.
#![tactic(auto)]

ghost use Rattle.std.specs.Prelude.{◌≡◌, ◌≤◌, length};
ghost use Rattle.json_text.specs.Verdict.{max_bytes, max_depth};
ghost use Rattle.path.specs.Answered.{Answers};
ghost use Rattle.path.specs.Measured.{path_from, MeasuresLabel, Measures};
ghost use Rattle.path.specs.Reached.{Reaches};
ghost use Rattle.path.specs.Slots.{slot_text, SlotWithin, SlotsWithin};
ghost use Rattle.paths.specs.Answer.{WritesPath};
ghost use Rattle.text.specs.Put.{Room, Written};

use encoding::{Ground, Refusal};
use path_names::{name_size, write_name};
use seek::KeptLink;
use text::{digit_count, write_byte, write_field, write_word};
use trace::{Slots, trace_from};
use validate::check_record;

// How many bytes stand around a position, `[` and `]`, and around a name, `['` and `']`.
const BRACKETS: usize = 2;

const QUOTED: usize = 4;

// How many bytes the label of a link has in a path; or a refusal of a name with half of a surrogate pair, by its opening quote.
fn label_size(record: &[u8], link: KeptLink) -> Result<usize, Refusal>
    requires { SlotWithin «record».now link × (length «record».now ≤ max_bytes) }
    ensures { MeasuresLabel «record».now link result }
{
    match link {
        KeptLink::Position(position) => Ok(digit_count(position) + BRACKETS),
        KeptLink::Name { from, to } => {
            let name = name_size(&record[from as usize..to as usize]);
            if name.half {
                return Err(Refusal {
                    ground: Ground::HalfName,
                    place: from as usize - 1,
                });
            }
            Ok(name.size + QUOTED)
        }
    }
}

// Measures the path of these links, the last one on the way first; or refuses its first name with half of a surrogate pair.
fn measure(record: &[u8], links: &[KeptLink]) -> Result<usize, Refusal>
    requires { SlotsWithin «record».now links.now × (length links.now ≤ max_depth) × (length «record».now ≤ max_bytes) }
    ensures { Measures «record».now links.now result }
{
    let mut size: usize = 1;
    for i in (0..links.len()).rev() {
        size += label_size(record, links[i])?;
    }
    Ok(size)
}

// Writes the label of a link, and gives the place after it.
fn write_label(record: &[u8], link: KeptLink, out: &mut [u8], at: usize) -> usize
    requires { SlotWithin «record».now link × Room (slot_text «record».now link) at out.old }
    ensures { Written (slot_text «record».now link) at out.old out.new result }
{
    match link {
        KeptLink::Position(position) => {
            let inner = write_byte(out, at, b'[');
            write_field(out, inner, position, b']')
        }
        KeptLink::Name { from, to } => {
            let start = write_word(out, at, b"['");
            let end = write_name(&record[from as usize..to as usize], out, start);
            write_word(out, end, b"']")
        }
    }
}

// Writes the path of these links, the last one on the way first, and gives its size.
fn write_labels(record: &[u8], links: &[KeptLink], out: &mut [u8]) -> usize
    requires { SlotsWithin «record».now links.now × Room (path_from «record».now links.now) 0 out.old }
    ensures { Written (path_from «record».now links.now) 0 out.old out.new result }
{
    let mut at = write_byte(out, 0, b'$');
    for i in (0..links.len()).rev() {
        at = write_label(record, links[i], out, at);
    }
    at
}

// What the writer of a path answers: a ground of refusal, 0 for none, its place, 0 without a refusal, and the size of the path, 0 on refusal.
#[repr(C)]
#[derive(Drop)]
pub struct PathWritten {
    pub ground: u32,
    pub place: usize,
    pub length: usize,
}

// Writes the path of the node that begins at `offset`, to which these links lead, or refuses it by grounds 9 and 10: its size.
fn write_reached(
    record: &[u8],
    offset: usize,
    links: &[KeptLink],
    buffer: &mut [u8],
) -> Result<usize, Refusal>
    requires { Reaches «record».now offset links.now × (length links.now ≤ max_depth) × (length «record».now ≤ max_bytes) }
    ensures { Answers «record».now offset buffer.old buffer.new result }
{
    let size = measure(record, links)?;
    if size > buffer.len() {
        return Err(Refusal {
            ground: Ground::NoRoom,
            place: offset,
        });
    }
    Ok(write_labels(record, links, buffer))
}

// The same for any record and offset: the size of the path, or a refusal, which leaves the buffer as it was.
fn write_found(record: &[u8], offset: usize, buffer: &mut [u8]) -> Result<usize, Refusal>
    ensures { Answers «record».now offset buffer.old buffer.new result }
{
    check_record(record)?;
    let mut slots = Slots::new();
    let Some(_) = trace_from(record, offset, &mut slots) else {
        return Err(Refusal {
            ground: Ground::NoValue,
            place: offset,
        });
    };
    write_reached(record, offset, slots.links(), buffer)
}

// Writes the normalized path of the node that begins at `offset` to the start of `buffer`, and leaves the bytes beyond it as they were.
// Grounds 4 to 6 and 8 refuse as in the value finder; then ground 9 a path with half of a surrogate pair in a name, and ground 10 one that is
// longer than the buffer. A refusal leaves the whole buffer as it was.
pub fn write_path(record: &[u8], offset: usize, buffer: &mut [u8]) -> PathWritten
    ensures { WritesPath «record».now offset buffer.old buffer.new result.ground result.place result.length }
{
    match write_found(record, offset, buffer) {
        Ok(length) => PathWritten {
            ground: 0,
            place: 0,
            length,
        },
        Err(refusal) => PathWritten {
            ground: refusal.ground.number(),
            place: refusal.place,
            length: 0,
        },
    }
}
