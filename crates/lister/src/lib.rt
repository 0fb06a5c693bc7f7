// What both listers share: the grounds of refusal before the walk, and the answer after it.
#![tactic(auto)]

ghost use Rattle.std.specs.Prelude.{◌≡◌, ◌≤◌};
ghost use Rattle.json_text.specs.Verdict.{max_bytes};
ghost use Rattle.lister.specs.Answers.{Admits, refusal, Countable, concluded};

use encoding::{Ground, Refusal};
use names::Names;
use pairs::Counts;
use query_parser::{Compiled, read_query};
use validate::check_record;

// What a lister answers: the ground of a refusal, 0 if there is none; its place; the pairs written; the peak.
#[repr(C)]
#[derive(Drop)]
pub struct Answer {
    pub ground: u32,
    pub place: u32,
    pub pairs: u32,
    pub peak: u32,
}

// Reads the query and checks the record: the steps of a query that can be walked for, with their names decoded, or the first of grounds 1 to
// 6 that fits.
pub fn admit(query: &[u8], record: &[u8], names: &mut Names) -> Result<Compiled, Refusal>
    ensures { Admits query.now «record».now names.new result }
{
    let steps = read_query(query, names)?;
    check_record(record)?;
    Ok(steps)
}

// The answer of a refusal that leaves the list as it was.
pub fn refuse(cause: Refusal) -> Answer
    requires { cause.place ≤ max_bytes }
    ensures { result ≡ refusal cause }
{
    Answer {
        ground: cause.ground.number(),
        place: cause.place as u32,
        pairs: 0,
        peak: 0,
    }
}

// The answer after a walk: ground 7 where it stopped at a node left over, and else the peak that it counted.
pub fn conclude(counts: Counts) -> Answer
    requires { Countable counts }
    ensures { result ≡ concluded counts.used counts.peak counts.stop }
{
    let pairs = counts.used as u32;
    match counts.stop {
        Some(first) => Answer {
            ground: Ground::LeftOver.number(),
            place: first as u32,
            pairs,
            peak: 0,
        },
        None => Answer {
            ground: 0,
            place: 0,
            pairs,
            peak: counts.peak as u32,
        },
    }
}
