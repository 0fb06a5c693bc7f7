// What is ahead of a walk: the child that an item is, and the definitions and laws of both walks, in specs/.
#![tactic(auto)]

ghost use Rattle.std.specs.Prelude.{◌≤◌, length};
ghost use Rattle.walk.specs.Enters.{EntersChild};

use marks::{Child, Query};
use scan::enter_item;

// A value that is ahead: its first byte, its marks, and whether it is picked out.
#[derive(Clone, Copy)]
pub struct Coming {
    pub at: usize,
    pub marks: u16,
    pub picked: bool,
}

// Enters the item at `at` of a container with the marks `around`, of which it is item number `index`, from 0: the value of the item.
#[inline(always)]
pub fn enter_child(
    query: &Query<'_>,
    record: &[u8],
    at: usize,
    object: bool,
    index: usize,
    around: u16,
) -> Coming
    requires { at ≤ length «record».now }
    ensures { EntersChild query.now.names.now query.now.kinds query.now.operands «record».now at object index around result }
{
    let item = enter_item(record, at, object);
    let name = &record[item.from..item.to];
    let child = if object {
        if item.escaped {
            Child::Escaped(name)
        } else {
            Child::Member(name)
        }
    } else {
        Child::Element(index)
    };
    let next = query.advance(around, child);
    Coming {
        at: item.value,
        marks: next.marks,
        picked: next.picked,
    }
}
