// The descent from the root of a checked record to the value that begins at an offset, value by value. It tells a keeper how each container on
// the way hangs below the one around it.
#![tactic(auto)]

ghost use Rattle.std.specs.Prelude.{◌≡◌, ◌≤◌, length, ⊤};
ghost use Rattle.json_text.specs.Verdict.{max_bytes};
ghost use Rattle.seek.specs.Keeps.{link_if, KeepsFrom, KeepsInside, KeepsValue};
ghost use Rattle.seek.specs.Seeks.{EndsValue, FindsFrom, FirstItem, NextItem, SeeksInside, SeeksValue};

use encoding::{CLOSING, OPENING, class};
use json_text::MAX_DEPTH;
use leap::Leaper;
use scan::{Entered, enter_item, scalar_end, skip_blanks};

mod keeper;

pub use keeper::{Keeper, KeptLink};

const COMMA: u8 = 0x2C;

// What opens an object.
pub const BRACE: u8 = 0x7B;

// The place after what was looked through.
#[derive(Clone, Copy)]
pub struct After {
    pub at: usize,
}

// Where an item is ahead in a container; where none is, the place after the closing bracket.
pub type Ahead = Result<usize, After>;

// The end of the value that is looked for; where it was not found, the place after what was looked through.
type Sought = Result<usize, After>;

// The place after the value at `at`.
pub fn value_end(record: &[u8], at: usize) -> usize
    requires { (at ≤ length «record».now) × (length «record».now ≤ max_bytes) }
    ensures { EndsValue «record».now at result }
{
    if at >= record.len() {
        return at;
    }
    if class(record[at]) == OPENING {
        return Leaper::new(record).leave(at + 1);
    }
    scalar_end(record, at)
}

// Passes the blanks behind an opening bracket: to the first item, or past the closing bracket.
pub fn first_item(record: &[u8], at: usize) -> Ahead
    requires { at ≤ length «record».now }
    ensures { FirstItem «record».now at result }
{
    let c = skip_blanks(record, at);
    if c >= record.len() {
        return Err(After { at: c });
    }
    if class(record[c]) == CLOSING {
        return Err(After { at: c + 1 });
    }
    Ok(c)
}

// Passes the blanks behind an item and the byte after them: the comma before the next item, or the closing bracket.
pub fn next_item(record: &[u8], at: usize) -> Ahead
    requires { at ≤ length «record».now }
    ensures { NextItem «record».now at result }
{
    let c = skip_blanks(record, at);
    if c >= record.len() {
        return Err(After { at: c });
    }
    if record[c] == COMMA {
        return Ok(c + 1);
    }
    Err(After { at: c + 1 })
}

// How an item hangs below its container: in an object by the bounds of its name, in an array by its position.
fn link(object: bool, item: Entered, position: usize) -> KeptLink
    requires { (item.from ≤ max_bytes) × (item.to ≤ max_bytes) × (position ≤ max_bytes) }
    ensures { result ≡ link_if object item.from item.to position }
{
    if object {
        return KeptLink::Name {
            from: item.from as u32,
            to: item.to as u32,
        };
    }
    KeptLink::Position(position as u32)
}

// Looks for the value that begins at `offset` in the value at `at`: itself or one below it, of which `levels` may be opened.
#[cycle(descent)]
fn seek_value<K: Keeper>(
    record: &[u8],
    offset: usize,
    at: usize,
    levels: usize,
    keeper: &mut K,
) -> Sought
    requires { (at ≤ length «record».now) × (length «record».now ≤ max_bytes) }
    ensures seeks { SeeksValue «record».now offset at levels result }
    ensures keeps { KeepsValue K.keeps «record».now offset at levels keeper.old keeper.new result }
{
    if at == offset {
        let end = value_end(record, at);
        // No value ends before the first byte.
        if end == 0 {
            return Err(After { at: end });
        }
        return Ok(end);
    }
    if at > offset {
        return Err(After {
            at: value_end(record, at),
        });
    }
    if at >= record.len() {
        return Err(After { at });
    }
    let b = record[at];
    if class(b) != OPENING {
        return Err(After {
            at: scalar_end(record, at),
        });
    }
    if levels == 0 {
        return Err(After { at });
    }
    seek_inside(record, offset, at + 1, b == BRACE, levels - 1, keeper)
}

// The same among the items of the container whose opening bracket stands just before `at`.
#[cycle(descent)]
fn seek_inside<K: Keeper>(
    record: &[u8],
    offset: usize,
    at: usize,
    object: bool,
    levels: usize,
    keeper: &mut K,
) -> Sought
    requires { (at ≤ length «record».now) × (length «record».now ≤ max_bytes) }
    ensures seeks { SeeksInside «record».now offset at object levels result }
    ensures keeps { KeepsInside K.keeps «record».now offset at object levels keeper.old keeper.new result }
{
    let mut ahead = first_item(record, at)?;
    let mut position: usize = 0;
    loop {
        let item = enter_item(record, ahead, object);
        match seek_value(record, offset, item.value, levels, keeper) {
            Ok(end) => {
                keeper.keep(link(object, item, position));
                return Ok(end);
            }
            Err(after) => ahead = next_item(record, after.at)?,
        }
        position += 1;
    }
}

// The end of the value of a record that begins at `offset`, if one does. The keeper is told the links from it up to the root.
pub fn seek_from<K: Keeper>(record: &[u8], offset: usize, keeper: &mut K) -> Option<usize>
    requires { length «record».now ≤ max_bytes }
    ensures finds { FindsFrom «record».now offset result }
    ensures keeps { KeepsFrom K.keeps «record».now offset keeper.old keeper.new result }
{
    let at = skip_blanks(record, 0);
    seek_value(record, offset, at, MAX_DEPTH, keeper).ok()
}

// The end of the value of a record that begins at `offset`, if one does.
pub fn find_from(record: &[u8], offset: usize) -> Option<usize>
    requires { length «record».now ≤ max_bytes }
    ensures { FindsFrom «record».now offset result }
{
    seek_from(record, offset, &mut ())
}
