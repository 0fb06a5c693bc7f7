// What both listers do, for any walk.
ghost use Rattle.std.specs.Prelude.{◌≤◌, length};
ghost use Rattle.json_text.specs.Verdict.{max_bytes};
ghost use Rattle.query_parser.specs.Holds.{Fits};
ghost use Rattle.walk.specs.Walks.{Walks};
ghost use Rattle.lister.specs.Listed.{Listed};

use lister::{Answer, admit, conclude, refuse};
use names::{NAMES_SIZE, Names};
use pairs::Counts;
use query_parser::Compiled;

// A walk: it lists the nodes of a checked record that a query picks out, and counts frames.
pub trait Walk {
    fn walk(names: &Names, steps: Compiled, record: &[u8], list: &mut [u32]) -> Counts
        requires fits { Fits steps.kinds steps.operands }
        requires record_len_bound { length «record».now ≤ max_bytes }
        ensures { Walks names.now steps.kinds steps.operands «record».now list.old list.new result };
}

// Lists the nodes of the record that the query picks out, in the order of their first bytes, by a walk: pairs of the offset of a node's first
// byte and the offset after its last, as many as the list has room for.
pub fn list_by<W: Walk>(query: &[u8], record: &[u8], list: &mut [u32]) -> Answer
    ensures { Listed query.now «record».now list.old list.new result }
{
    let mut names: Names = [0; NAMES_SIZE];
    match admit(query, record, &mut names) {
        Ok(steps) => conclude(W::walk(&names, steps, record, list)),
        Err(cause) => refuse(cause),
    }
}
