// The query reader: grounds 1 to 3, and the steps of a query as masks and operands, with their names decoded.
#![tactic(auto)]

mod compiled;

ghost use Rattle.std.specs.Prelude.{◌≡◌, ◌≤◌, length, drop};
ghost use Rattle.query.specs.Machine.{done, place, start};
ghost use Rattle.query.specs.Read.{reading};
ghost use Rattle.query.specs.Verdict.{overlong};
ghost use Rattle.encoding.specs.Refusals.{refused};
ghost use Rattle.query_parser.specs.Answer.{wrong_at, rest_of, overflow, QueryRead};

pub use compiled::{Compiled, Kinds, name_end, name_start};
use encoding::{Dead, Ground, Refusal};
use names::Names;
use query_steps::read_step;

const MAX_QUERY_BYTES: usize = 1024;

const ROOT: u8 = b'$';

// The refusal of a query that is not in the grammar, by its dead byte.
fn wrong(dead: Dead) -> Refusal
    ensures { result ≡ wrong_at dead.at }
{
    Refusal {
        ground: Ground::QueryWrong,
        place: dead.at,
    }
}

// Whether steps stand from `at` on up to the query's end; else the dead byte.
fn read_rest(query: &[u8], at: usize) -> Result<(), Dead>
    requires { at ≤ length query.now }
    ensures { result ≡ rest_of (reading done at (drop at query.now)) }
{
    let mut i = at;
    while i < query.len() {
        let (_, after) = read_step(query, i)?;
        i = after;
    }
    Ok(())
}

// The refusal of a query whose 17th step begins at `place`: ground 3, if the rest of it, from `at` on, is in the grammar, and else
// ground 2.
fn too_many(query: &[u8], place: usize, at: usize) -> Refusal
    requires { at ≤ length query.now }
    ensures { result ≡ overflow place (rest_of (reading done at (drop at query.now))) }
{
    match read_rest(query, at) {
        Ok(()) => Refusal {
            ground: Ground::TooManySteps,
            place,
        },
        Err(dead) => wrong(dead),
    }
}

// The place of a query's dead byte, or its length where it has none.
fn dead_place(query: &[u8]) -> usize
    ensures { result ≡ place start query.now }
{
    let Some(&ROOT) = query.first() else {
        return 0;
    };
    match read_rest(query, 1) {
        Ok(()) => query.len(),
        Err(dead) => dead.at,
    }
}

// The refusal of a query of more than 1,024 bytes, which begins with `first`, 1,024 of them: ground 2, if one of these is dead, and else
// ground 1.
fn too_long(first: &[u8]) -> Refusal
    ensures { refused result ≡ overlong (place start first.now) }
{
    let at = dead_place(first);
    if at < MAX_QUERY_BYTES {
        return wrong(Dead { at });
    }
    Refusal {
        ground: Ground::QueryTooLong,
        place: MAX_QUERY_BYTES,
    }
}

// Reads a query: its steps, with their names decoded, or the first of grounds 1 to 3 that fits. Of a query that is too long only the first
// 1,024 bytes are read.
pub fn read_query(query: &[u8], names: &mut Names) -> Result<Compiled, Refusal>
    ensures { QueryRead query.now names.new result }
{
    if query.len() > MAX_QUERY_BYTES {
        return Err(too_long(&query[..MAX_QUERY_BYTES]));
    }
    let Some(&ROOT) = query.first() else {
        return Err(wrong(Dead { at: 0 }));
    };
    let mut steps = compiled::no_steps();
    let mut at: usize = 1;
    while at < query.len() {
        let (found, after) = read_step(query, at).map_err(wrong)?;
        let full = steps.kinds.count == compiled::MAX_STEPS;
        if full {
            return Err(too_many(query, found.place, after));
        }
        let operand = compiled::decode(query, found, names);
        steps.push(found, operand);
        at = after;
    }
    Ok(steps)
}
