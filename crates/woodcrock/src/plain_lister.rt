// The lister by the plain walk.
ghost use Rattle.lister.specs.Listed.{Listed};

use crate::listing::{Walk, list_by};
use lister::Answer;
use names::Names;
use pairs::Counts;
use plain::walk_plain;
use query_parser::Compiled;

// The plain walk.
struct PlainWalk;

impl Walk for PlainWalk {
    fn walk(names: &Names, steps: Compiled, record: &[u8], list: &mut [u32]) -> Counts {
        walk_plain(names, steps, record, list)
    }
}

// Lists the nodes of the record that the query picks out, in the order of their first bytes, by the plain walk: pairs of the offset of
// a node's first byte and the offset after its last, as many as the list has room for.
pub fn list_plain(query: &[u8], record: &[u8], list: &mut [u32]) -> Answer
    ensures { Listed query.now «record».now list.old list.new result }
{
    list_by::<PlainWalk>(query, record, list)
}
