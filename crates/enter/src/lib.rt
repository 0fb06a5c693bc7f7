// A value that is ahead of the jumping walk: passed at once, or, where it is a container with items that is not dead, entered.
#![tactic(auto)]

ghost use Rattle.std.specs.Prelude.{◌≡◌, ◌≤◌, ◌<◌, length};
ghost use Rattle.json_text.specs.Verdict.{max_depth};
ghost use Rattle.enter.specs.Passes.{PassesValue, PassesContainer};

use encoding::{CLOSING, OPENING, class};
use json_text::MAX_DEPTH;
use leap::Leaper;
use marks::framed;
use pairs::{begin, raise};
use pile::{Pile, Standing, is_dead};
use scan::{scalar_end, skip_blanks};
use walk::Coming;

// Passes the container ahead, whose pair is begun, or enters it where it has items and is not dead. Its frame counts in either case, but not
// where the record ends behind its bracket.
fn container(
    v: Coming,
    wait: Option<usize>,
    a: &mut Standing,
    list: &mut [u32],
    pile: &mut Pile,
    leaper: &mut Leaper<'_>,
)
    requires at_in_bounds { v.at < length leaper.old.bytes.now }
    requires depth_le_max_depth { (a.old.depth ≤ max_depth) × (a.old.frames ≤ max_depth) }
    ensures passes_container { PassesContainer leaper.old.bytes.now pile.old pile.new list.old list.new v wait a.old a.new }
    ensures same_record { leaper.new.bytes.now ≡ leaper.old.bytes.now }
{
    let record = leaper.bytes;
    let at = v.at;
    if a.depth >= MAX_DEPTH {
        a.lose(at);
        return;
    }
    if a.frames >= MAX_DEPTH {
        a.lose(at);
        return;
    }
    let frames = framed(a.marks, v.marks, a.frames);
    let peak = a.counts.peak;
    raise(&mut a.counts, frames);
    if is_dead(v.marks, a.counts.stop) {
        let end = leaper.leave(at + 1);
        a.pass(list, wait, end);
        return;
    }
    let first = skip_blanks(record, at + 1);
    if first >= record.len() {
        a.counts.peak = peak;
        a.lose(at);
        return;
    }
    if class(record[first]) == CLOSING {
        a.pass(list, wait, first + 1);
        return;
    }
    a.enter(pile, record[at], first, v, wait, frames);
}

// Passes the value ahead, or enters it where it is a container that has items and is not dead.
pub fn value(
    v: Coming,
    a: &mut Standing,
    list: &mut [u32],
    pile: &mut Pile,
    leaper: &mut Leaper<'_>,
)
    requires at_in_bounds { v.at ≤ length leaper.old.bytes.now }
    requires depth_le_max_depth { (a.old.depth ≤ max_depth) × (a.old.frames ≤ max_depth) }
    ensures passes_value { PassesValue leaper.old.bytes.now pile.old pile.new list.old list.new v a.old a.new }
    ensures same_record { leaper.new.bytes.now ≡ leaper.old.bytes.now }
{
    let record = leaper.bytes;
    let at = v.at;
    if at >= record.len() {
        a.lose(at);
        return;
    }
    let wait = begin(list, v.picked, &mut a.counts, at);
    if class(record[at]) != OPENING {
        let end = scalar_end(record, at);
        a.pass(list, wait, end);
        return;
    }
    container(v, wait, a, list, pile, leaper);
}
