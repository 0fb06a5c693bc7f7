// The check of a record: grounds 4 to 6 of document 01 in one pass, exactly RFC 8259 in UTF-8.
#![tactic(auto)]

ghost use Rattle.json_text.specs.Verdict.{text_verdict, record_verdict};
ghost use Rattle.validate.specs.Checks.{Answers};

use encoding::{Dead, Ground, Refusal};
use json_text::MAX_BYTES;
use moves::Moves;
use nest::Nest;
use turns::Due;

mod nest;
mod turns;

// Grounds 5 and 6: the first byte with which no JSON text begins, or the bracket that opens a level too many.
fn check_text(text: &[u8]) -> Result<(), Refusal>
    ensures { Answers (text_verdict text.now) result }
{
    let moves = Moves::new(text.len());
    let mut nest = Nest::new();
    let mut due = Due::Value;
    let mut i = swar::blank_run(text, 0);
    while i < text.len() {
        let turn = turns::take_turn(text, &moves, &mut nest, i, due)?;
        due = turn.due;
        i = swar::blank_run(text, turn.at);
    }
    match due {
        Due::After if nest.is_empty() => Ok(()),
        _ => Err(turns::wrong(Dead { at: i })),
    }
}

// Grounds 4 to 6: whether the record is too long, is no JSON text or nests too deep, and where.
pub fn check_record(record: &[u8]) -> Result<(), Refusal>
    ensures { Answers (record_verdict «record».now) result }
{
    if record.len() > MAX_BYTES {
        return Err(Refusal {
            ground: Ground::RecordTooLong,
            place: MAX_BYTES,
        });
    }
    check_text(record)
}
