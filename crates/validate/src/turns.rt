// The turns of the check: what is due is read, and the containers around it are kept.
ghost use Rattle.std.specs.Prelude.{◌≡◌, ◌≤◌, ◌<◌, length, get_or};
ghost use Rattle.encoding.specs.Reads.{Reads};
ghost use Rattle.encoding.specs.Refusals.{refusing};
ghost use Rattle.encoding.specs.declared.refusals.Ground.TheVariants.{RecordWrong};
ghost use Rattle.json_text.specs.Grammar as grammar;
ghost use Rattle.json_text.specs.Led.{Led};
ghost use Rattle.json_text.specs.Machine.{Stack, colon, value_due};
ghost use Rattle.validate.specs.Nesting.{kind_of};
ghost use Rattle.validate.specs.Turns.{ItemDue, standing, Ready, Turned};

use crate::nest::{Kind, Nest};
use encoding::{Dead, Ground, Read, Refusal};
use moves::Moves;

// What is due: a value, a member's name, or what follows a value.
#[derive(Clone, Copy)]
pub enum Due {
    Value,
    Name,
    After,
}

// Where a turn has come to, and what is due there.
#[derive(Clone, Copy)]
pub struct Turn {
    pub at: usize,
    pub due: Due,
}

// The refusal of a dead byte.
pub fn wrong(dead: Dead) -> Refusal
    ensures { result ≡ refusing RecordWrong dead.at }
{
    Refusal {
        ground: Ground::RecordWrong,
        place: dead.at,
    }
}

// What is due as an item of a container of this kind.
fn item_due(kind: Kind) -> Due
    ensures { ItemDue kind result }
{
    match kind {
        Kind::Array => Due::Value,
        Kind::Object => Due::Name,
    }
}

// Opens a container at its bracket, up to where its first item is due, and closes it where it is empty.
fn open(s: &[u8], nest: &mut Nest, at: usize, kind: Kind) -> Result<Turn, Refusal>
    requires { Ready s.now at × (get_or s.now at 0 ≡ grammar.opening (kind_of kind)) }
    ensures { Turned (standing s.now Due.Value nest.old at) s.now at nest.new result }
{
    if nest.is_full() {
        return Err(Refusal {
            ground: Ground::TooDeep,
            place: at,
        });
    }
    nest.push(kind);
    let next = swar::blank_run(s, at + 1);
    if scalars::byte_at(s, next, kind.closing()) {
        nest.pop();
        return Ok(Turn {
            at: next + 1,
            due: Due::After,
        });
    }
    Ok(Turn {
        at: next,
        due: item_due(kind),
    })
}

// Reads a value up to its end, or into a container.
fn value(s: &[u8], moves: &Moves, nest: &mut Nest, at: usize) -> Result<Turn, Refusal>
    requires { Ready s.now at }
    ensures { Turned (standing s.now Due.Value nest.old at) s.now at nest.new result }
{
    let end = match s[at] {
        b'{' => return open(s, nest, at, Kind::Object),
        b'[' => return open(s, nest, at, Kind::Array),
        b'"' => characters::string_end(s, moves, at + 1),
        _ => scalars::scalar_end(s, at),
    };
    Ok(Turn {
        at: end.map_err(wrong)?,
        due: Due::After,
    })
}

// Reads the colon after a name: at once where it follows, or after blanks.
fn colon_end(s: &[u8], at: usize) -> Read
    requires { at ≤ length s.now }
    ensures { Reads (Led s.now at colon value_due) result }
{
    if scalars::byte_at(s, at, b':') {
        return Ok(at + 1);
    }
    let place = swar::blank_run(s, at);
    if !scalars::byte_at(s, place, b':') {
        return Err(Dead { at: place });
    }
    Ok(place + 1)
}

// Reads a member's name and the colon after it.
fn name(s: &[u8], moves: &Moves, at: usize) -> Result<Turn, Refusal>
    requires { Ready s.now at }
    ensures { (k : Stack) → Turned (standing s.now Due.Name k at) s.now at k result }
{
    if s[at] != b'"' {
        return Err(wrong(Dead { at }));
    }
    let end = characters::string_end(s, moves, at + 1).map_err(wrong)?;
    Ok(Turn {
        at: colon_end(s, end).map_err(wrong)?,
        due: Due::Value,
    })
}

// Reads what follows a value: a comma, or the bracket that closes the container around it.
fn separator(s: &[u8], nest: &mut Nest, at: usize) -> Result<Turn, Refusal>
    requires { Ready s.now at }
    ensures { Turned (standing s.now Due.After nest.old at) s.now at nest.new result }
{
    let Some(kind) = nest.innermost() else {
        return Err(wrong(Dead { at }));
    };
    let b = s[at];
    if b == b',' {
        return Ok(Turn {
            at: at + 1,
            due: item_due(kind),
        });
    }
    if b == kind.closing() {
        nest.pop();
        return Ok(Turn {
            at: at + 1,
            due: Due::After,
        });
    }
    Err(wrong(Dead { at }))
}

// One turn, by what is due and then by the byte.
pub fn take_turn(
    s: &[u8],
    moves: &Moves,
    nest: &mut Nest,
    at: usize,
    due: Due,
) -> Result<Turn, Refusal>
    requires { Ready s.now at }
    ensures { Turned (standing s.now due nest.old at) s.now at nest.new result }
{
    match due {
        Due::Value => value(s, moves, nest, at),
        Due::Name => name(s, moves, at),
        Due::After => separator(s, nest, at),
    }
}
