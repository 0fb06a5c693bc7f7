// The plain walk: it enters each container's values one level down, as the nesting goes, and looks at every node.
#![tactic(auto)]

ghost use Rattle.std.specs.Prelude.{◌+◌, ◌≤◌, ◌<◌, length};
ghost use Rattle.json_text.specs.Verdict.{max_bytes, max_depth};
ghost use Rattle.pairs.specs.Pairs.{tally_of};
ghost use Rattle.query_parser.specs.Holds.{Fits};
ghost use Rattle.walk.specs.Walks.{Walks};
ghost use Rattle.plain.specs.Plain.{state_of, RootState, EntersChild, WalksValue, WalksItems};

use encoding::{CLOSING, OPENING, class};
use json_text::MAX_DEPTH;
use marks::{Query, framed};
use names::Names;
use pairs::{Counts, begin, finish, raise};
use query_parser::Compiled;
use scan::{scalar_end, skip_blanks};

// The bracket that opens an object, and the byte between two items.
const OBJECT: u8 = b'{';

const COMMA: u8 = b',';

// The state of a node: its marks, whether it is picked out, and the frames on the way to it.
#[derive(Clone, Copy)]
struct State {
    marks: u16,
    picked: bool,
    frames: usize,
}

// The first byte of an item's value, and the value's state.
#[derive(Clone, Copy)]
struct Child {
    at: usize,
    state: State,
}

// The state of the root for a query of `count` steps: mark 0 where there is a step, picked out where there is none.
fn root_state(count: usize) -> State
    ensures { RootState count (state_of result) }
{
    if count == 0 {
        return State {
            marks: 0,
            picked: true,
            frames: 0,
        };
    }
    State {
        marks: 1,
        picked: false,
        frames: 0,
    }
}

// Enters the item at `at` of a container with the state `around`, of which it is item number `index`, from 0: the place of the item's value,
// and the value's state.
fn enter_child(
    query: &Query<'_>,
    record: &[u8],
    at: usize,
    object: bool,
    index: usize,
    around: State,
) -> Child
    requires { (at ≤ length «record».now) × (around.frames < max_depth) }
    ensures { EntersChild query.now.names.now query.now.kinds query.now.operands «record».now at object index
        (state_of around) result.at (state_of result.state) }
{
    let above = around.marks;
    let child = walk::enter_child(query, record, at, object, index, above);
    let frames = framed(above, child.marks, around.frames);
    Child {
        at: child.at,
        state: State {
            marks: child.marks,
            picked: child.picked,
            frames,
        },
    }
}

// Walks the value at `at`, which nests at most `left` levels deep, and gives the place after it: lists it if it is picked out, counts its frames
// if it is a container, and walks its items. Where no level is left it ends at the bracket; no checked record comes to that.
#[cycle(walk_items_walk_value)]
fn walk_value(
    query: &Query<'_>,
    record: &[u8],
    at: usize,
    left: usize,
    node: State,
    list: &mut [u32],
    counts: &mut Counts,
) -> usize
    requires { (length «record».now ≤ max_bytes) × (at ≤ length «record».now) × (node.frames + left ≤ max_depth) }
    ensures { WalksValue query.now.names.now query.now.kinds query.now.operands «record».now at left (state_of node)
        (tally_of list.old counts.old) (tally_of list.new counts.new) result }
{
    if at >= record.len() {
        return at;
    }
    let wait = begin(list, node.picked, counts, at);
    let byte = record[at];
    if class(byte) != OPENING {
        let end = scalar_end(record, at);
        finish(list, wait, end);
        return end;
    }
    if left == 0 {
        return at;
    }
    raise(counts, node.frames);
    let object = byte == OBJECT;
    let end = walk_items(query, record, at + 1, left - 1, object, node, list, counts);
    finish(list, wait, end);
    end
}

// Walks the items of the container with the state `node` whose opening bracket stands just before `at`, each value at most `left`
// levels deep, up to its closing bracket, and gives the place after that.
#[cycle(walk_items_walk_value)]
fn walk_items(
    query: &Query<'_>,
    record: &[u8],
    at: usize,
    left: usize,
    object: bool,
    node: State,
    list: &mut [u32],
    counts: &mut Counts,
) -> usize
    requires { (length «record».now ≤ max_bytes) × (at ≤ length «record».now) × (node.frames + left < max_depth) }
    ensures { WalksItems query.now.names.now query.now.kinds query.now.operands «record».now at left object (state_of node)
        (tally_of list.old counts.old) (tally_of list.new counts.new) result }
{
    let first = skip_blanks(record, at);
    if first >= record.len() {
        return first;
    }
    if class(record[first]) == CLOSING {
        let end = first + 1;
        return end;
    }
    let mut i = first;
    let mut index: usize = 0;
    loop {
        let child = enter_child(query, record, i, object, index, node);
        let passed = walk_value(query, record, child.at, left, child.state, list, counts);
        let end = skip_blanks(record, passed);
        if end >= record.len() {
            return end;
        }
        let byte = record[end];
        let end = end + 1;
        if byte != COMMA {
            return end;
        }
        i = end;
        index += 1;
    }
}

// Lists the nodes of a checked record that a query picks out, and counts frames, by the plain walk: what the list holds and the counts
// are the tally of all nodes. Where the list has too few pairs it holds the first nodes, and the walk says where the first one left over is.
pub fn walk_plain(names: &Names, steps: Compiled, record: &[u8], list: &mut [u32]) -> Counts
    requires fits { Fits steps.kinds steps.operands }
    requires record_len_bound { length «record».now ≤ max_bytes }
    ensures { Walks names.now steps.kinds steps.operands «record».now list.old list.new result }
{
    let kinds = steps.kinds;
    let operands = steps.operands;
    let query = Query {
        names,
        kinds,
        operands,
    };
    let at = skip_blanks(record, 0);
    let node = root_state(kinds.count);
    let mut counts = Counts {
        used: 0,
        peak: 0,
        stop: None,
    };
    let end = walk_value(&query, record, at, MAX_DEPTH, node, list, &mut counts);
    counts
}
