// The value that begins at an offset of a record: where it ends, and its bytes.
#![tactic(auto)]

ghost use Rattle.std.specs.Prelude.{◌≡◌};
ghost use Rattle.answers.specs.Finder.{Finds, value_part, part_start, Behind};
ghost use Rattle.find.specs.Found.{FindsEnd};

use encoding::{Ground, Refusal};
use seek::find_from;
use validate::check_record;

// What the value finder answers: a ground of refusal, 0 for none, its place, 0 without a refusal, and the end of the value, 0 on refusal.
#[repr(C)]
#[derive(Drop)]
pub struct Found {
    pub ground: u32,
    pub place: usize,
    pub end: usize,
}

// What the value finder answers, as a result.
fn find(record: &[u8], offset: usize) -> Result<usize, Refusal>
    ensures { FindsEnd «record».now offset result }
{
    check_record(record)?;
    find_from(record, offset).ok_or(Refusal {
        ground: Ground::NoValue,
        place: offset,
    })
}

// The value finder: the end of the value that begins at `offset`. Grounds 4 to 6 refuse the record first, and then ground 8 an offset that
// is not the first byte of a value; the end is 0 then.
pub fn find_value(record: &[u8], offset: usize) -> Found
    ensures { Finds «record».now offset result.ground result.place result.end }
{
    match find(record, offset) {
        Ok(end) => Found {
            ground: 0,
            place: 0,
            end,
        },
        Err(refusal) => Found {
            ground: refusal.ground.number(),
            place: refusal.place,
            end: 0,
        },
    }
}

// The value reader: the part of `record` that is the value that begins at `offset`, or an empty part where the finder refuses.
pub fn read_value(record: &[u8], offset: usize) -> &[u8]
    ensures result_value { result.now ≡ value_part «record».now offset }
    ensures behind { Behind «record».entry.ref_ptr result.ref_ptr (part_start «record».now offset) }
{
    match find(record, offset) {
        Ok(end) => &record[offset..end],
        Err(_) => &record[..0],
    }
}
