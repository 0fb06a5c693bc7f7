// The lister by the jumping walk.
ghost use Rattle.lister.specs.Listed.{Listed};

use crate::listing::{Walk, list_by};
use jumping::walk_jumping;
use lister::Answer;
use names::Names;
use pairs::Counts;
use query_parser::Compiled;

// The jumping walk.
struct JumpingWalk;

impl Walk for JumpingWalk {
    fn walk(names: &Names, steps: Compiled, record: &[u8], list: &mut [u32]) -> Counts {
        walk_jumping(names, steps, record, list)
    }
}

// The same answers and the same list by the jumping walk, which goes straight past what the query cannot need.
pub fn list_jumping(query: &[u8], record: &[u8], list: &mut [u32]) -> Answer
    ensures { Listed query.now «record».now list.old list.new result }
{
    list_by::<JumpingWalk>(query, record, list)
}
