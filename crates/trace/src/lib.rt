// The links on the way from the root of a checked record to the value that begins at an offset: how each container hangs below the one around
// it.
#![tactic(auto)]

ghost use Rattle.std.specs.Prelude.{◌≡◌, ◌≤◌, List, [], length, take};
ghost use Rattle.json_text.specs.Verdict.{max_bytes, max_depth};
ghost use Rattle.seek.specs.declared.keeper.KeptLink.{KeptLink};
ghost use Rattle.trace.specs.Slots.{Puts};
ghost use Rattle.trace.specs.Traces.{TracesFrom};

use json_text::MAX_DEPTH;
use seek::{Keeper, KeptLink, seek_from};
use std::marker::Model;

// Slots for the links on the way to a value, one for each level that a record may have. The first ones are used, and the last link on the way
// stands in the first of them.
#[derive(Clone, Drop)]
pub struct Slots {
    slots: [KeptLink; MAX_DEPTH],
    used: usize,
}

impl Model for Slots {
    ghost Value = { List KeptLink };

    ghost view = { λ s. take s.used s.slots };

    ghost invariant = { λ s. s.used ≤ max_depth };
}

impl Slots {
    // No link is kept.
    pub fn new() -> Slots
        ensures { result ≡ [] }
    {
        Slots {
            slots: [KeptLink::Position(0); MAX_DEPTH],
            used: 0,
        }
    }

    // The links that are kept.
    pub fn links(&self) -> &[KeptLink]
        ensures kept { result.now ≡ self.now }
        ensures few { length result.now ≤ max_depth }
    {
        &self.slots[..self.used]
    }

    fn clear(&mut self)
        ensures { self.new ≡ [] }
    {
        self.used = 0;
    }
}

// A link is put behind the others, if there is a slot for it.
impl Keeper for Slots {
    ghost keeps = { Puts };

    fn keep(&mut self, link: KeptLink) {
        if self.used < MAX_DEPTH {
            self.slots[self.used] = link;
            self.used += 1;
        }
    }
}

// The end of the value of a record that begins at `offset`, if one does. The links from the root down to it are kept, and no others.
pub fn trace_from(record: &[u8], offset: usize, slots: &mut Slots) -> Option<usize>
    requires { length «record».now ≤ max_bytes }
    ensures { TracesFrom «record».now offset slots.new result }
{
    slots.clear();
    seek_from(record, offset, slots)
}
