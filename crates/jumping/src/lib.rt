// The jumping walk: one loop over an explicit pile of frames, which goes straight to the end of a dead container.
#![tactic(auto)]

ghost use Rattle.std.specs.Prelude.{◌≡◌, true, false, ◌≤◌, length};
ghost use Rattle.json_text.specs.Verdict.{max_bytes, max_depth};
ghost use Rattle.query_parser.specs.Holds.{Fits};
ghost use Rattle.walk.specs.Walks.{Walks};
ghost use Rattle.jumping.specs.Turns.{RootMarks, BeforeRoot, Comes, GoesOn, Turns};

use enter::value;
use json_text::MAX_DEPTH;
use leap::Leaper;
use marks::Query;
use names::Names;
use pairs::Counts;
use pile::{NO_CONTAINER, NO_FRAME, Pile, Standing};
use query_parser::Compiled;
use scan::skip_blanks;
use walk::{Coming, enter_child};

// The opening bracket of an object, and the byte between two items.
const OBJECT: u8 = b'{';

const COMMA: u8 = b',';

// The marks of the root: mark 0, where there is a step.
fn root_marks(count: usize) -> u16
    ensures { RootMarks count result }
{
    if count == 0 {
        return 0;
    }
    1
}

// Before the root of the record, for a query of `count` steps.
fn start(record: &[u8], count: usize) -> Standing
    ensures { BeforeRoot «record».now count result }
{
    let at = skip_blanks(record, 0);
    let marks = root_marks(count);
    let counts = Counts {
        used: 0,
        peak: 0,
        stop: None,
    };
    Standing {
        at,
        depth: 0,
        frames: 0,
        counts,
        marks,
        item: true,
    }
}

// The value ahead: the root, or that of the next item of the innermost container, with the marks that its label leads to.
fn coming(query: &Query<'_>, record: &[u8], a: &Standing, pile: &Pile) -> Coming
    requires at_in_bounds { a.now.at ≤ length «record».now }
    requires item_value { (a.now.item ≡ true) × (a.now.depth ≤ max_depth) }
    ensures { Comes query.now.names.now query.now.kinds query.now.operands «record».now pile.now a.now result }
{
    if a.depth == 0 {
        return Coming {
            at: a.at,
            marks: a.marks,
            picked: query.kinds.count == 0,
        };
    }
    let top = a.depth - 1;
    let around = pile.containers[top];
    enter_child(
        query,
        record,
        a.at,
        around.bracket == OBJECT,
        around.count as usize,
        a.marks,
    )
}

// Goes on after a value: past a comma to the next item, or past the closing bracket of the innermost container, which is left.
fn past(record: &[u8], a: &mut Standing, list: &mut [u32], pile: &mut Pile)
    requires record_len_bound { (length «record».now ≤ max_bytes) × (a.old.at ≤ length «record».now) }
    requires depth_le_max_depth { (a.old.depth ≤ max_depth) × (a.old.frames ≤ max_depth) × (a.old.depth ≡ 0 → ⊥) }
    ensures { GoesOn «record».now pile.old pile.new list.old list.new a.old a.new }
{
    let at = a.at;
    let next = skip_blanks(record, at);
    if next >= record.len() {
        a.lose(at);
        return;
    }
    let top = a.depth - 1;
    if record[next] == COMMA {
        pile.count_item(top);
        a.at = next + 1;
        a.item = true;
        return;
    }
    a.leave(pile);
    let left = pile.containers[top];
    a.pass(list, left.wait, next + 1);
}

// One step: past the value ahead or into it, or on from a value that has been passed.
fn turn(
    query: &Query<'_>,
    a: &mut Standing,
    list: &mut [u32],
    pile: &mut Pile,
    leaper: &mut Leaper<'_>,
)
    requires at_in_bounds { a.old.at ≤ length leaper.old.bytes.now }
    requires depth_le_max_depth { (a.old.depth ≤ max_depth) × (a.old.frames ≤ max_depth) × (a.old.item ≡ false → a.old.depth ≡ 0 → ⊥) }
    ensures turns { Turns query.now.names.now query.now.kinds query.now.operands leaper.old.bytes.now pile.old pile.new list.old list.new a.old a.new }
    ensures same_record { leaper.new.bytes.now ≡ leaper.old.bytes.now }
{
    let record = leaper.bytes;
    if !a.item {
        past(record, a, list, pile);
        return;
    }
    let v = coming(query, record, a, pile);
    value(v, a, list, pile, leaper);
}

// Lists the nodes of a checked record that a query picks out, and counts frames, by the jumping walk: what the list holds and the counts
// are the tally of all nodes. Where the list has too few pairs it holds the first nodes, and the walk says where the first one left over is.
pub fn walk_jumping(names: &Names, steps: Compiled, record: &[u8], list: &mut [u32]) -> Counts
    requires fits { Fits steps.kinds steps.operands }
    requires record_len_bound { length «record».now ≤ max_bytes }
    ensures { Walks names.now steps.kinds steps.operands «record».now list.old list.new result }
{
    let kinds = steps.kinds;
    let operands = steps.operands;
    let query = Query {
        names,
        kinds,
        operands,
    };
    let mut pile = Pile {
        frames: [NO_FRAME; MAX_DEPTH],
        containers: [NO_CONTAINER; MAX_DEPTH],
    };
    let mut leaper = Leaper::new(record);
    let mut a = start(record, query.kinds.count);
    loop {
        turn(&query, &mut a, list, &mut pile, &mut leaper);
        if a.depth == 0 {
            return a.counts;
        }
    }
}
