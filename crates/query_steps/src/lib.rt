// One step of a query, read by the scanners.
#![tactic(auto)]

ghost use Rattle.std.specs.Prelude.{◌≡◌, ◌≤◌, ◌<◌, length, get_or};
ghost use Rattle.query.specs.Grammar.{Depth, deep, Quote, quote_byte};
ghost use Rattle.query.specs.Machine.{dotted, opened, inside, quoted};
ghost use Rattle.query_lexer.specs.Scans.{deeper_byte, IsDigit};
ghost use Rattle.query_steps.specs.Reader.{Closed, PartRead, StepAt};

use encoding::{Dead, Read};

const DOT: u8 = b'.';

const STAR: u8 = b'*';

const OPEN: u8 = b'[';

const CLOSE: u8 = b']';

const SINGLE: u8 = 0x27;

const DOUBLE: u8 = 0x22;

// What a step takes: everything; the name that stands between two places of the query, its first byte and the byte after its last; or a
// position.
#[derive(Clone, Copy)]
pub enum Taking {
    Every,
    Name(usize, usize),
    Position(u64),
}

// A step of the query: whether it is deep, the place of the `.` or `[` that begins it, and what it takes.
#[derive(Clone, Copy)]
pub struct Found {
    pub deep: bool,
    pub place: usize,
    pub taking: Taking,
}

// What a reader of the rest of a step answers: what the step takes and the place after it, or the dead byte.
type Rest = Result<(Taking, usize), Dead>;

// What a reader of steps answers: a step and the place after it, or the dead byte.
pub type StepRead = Result<(Found, usize), Dead>;

// The end of a step in brackets, from `at` on: blanks and the closing bracket.
fn close(query: &[u8], at: usize) -> Read
    requires { at ≤ length query.now }
    ensures { Closed query.now at result }
{
    let end = query_lexer::skip_blanks(query, at);
    match query.get(end) {
        Some(&CLOSE) => Ok(end + 1),
        _ => Err(Dead { at: end }),
    }
}

// A quoted name and the end of its brackets, from the name's first byte on.
fn read_quoted(query: &[u8], quote: u8, at: usize) -> Rest
    requires { at ≤ length query.now }
    ensures { (x : Quote) → quote ≡ quote_byte x → PartRead query.now (inside (quoted x)) at result }
{
    let stop = query_lexer::quoted(query, quote, at)?;
    let end = close(query, stop + 1)?;
    Ok((Taking::Name(at, stop), end))
}

// A position and the end of its brackets, from the position's first digit on.
fn read_position(query: &[u8], at: usize) -> Rest
    requires { (at < length query.now) × IsDigit (get_or query.now at 0) }
    ensures { PartRead query.now opened at result }
{
    let digits = query_lexer::position(query, at);
    let end = close(query, digits.at)?;
    Ok((Taking::Position(digits.number), end))
}

// The rest of a step in brackets, from behind the opening one: blanks, a quoted name, a position or `*`, blanks, the closing bracket.
fn read_bracket(query: &[u8], at: usize) -> Rest
    requires { at ≤ length query.now }
    ensures { PartRead query.now opened at result }
{
    let inner = query_lexer::skip_blanks(query, at);
    match query.get(inner) {
        Some(&STAR) => {
            let end = close(query, inner + 1)?;
            Ok((Taking::Every, end))
        }
        Some(&SINGLE) => read_quoted(query, SINGLE, inner + 1),
        Some(&DOUBLE) => read_quoted(query, DOUBLE, inner + 1),
        Some(b'0'..=b'9') => read_position(query, inner),
        _ => Err(Dead { at: inner }),
    }
}

// The rest of a step behind `.` or `..`: a shorthand name or `*`.
fn read_short(query: &[u8], at: usize) -> Rest
    requires { at ≤ length query.now }
    ensures { (d : Depth) → (get_or query.now at 0 ≡ deeper_byte d → ⊥) → PartRead query.now (dotted d) at result }
{
    match query.get(at) {
        Some(&STAR) => Ok((Taking::Every, at + 1)),
        Some(_) => {
            let end = query_lexer::shorthand(query, at)?;
            Ok((Taking::Name(at, end), end))
        }
        None => Err(Dead { at }),
    }
}

// The rest of a step behind `..`: a shorthand name, `*` or brackets.
fn read_deep(query: &[u8], at: usize) -> Rest
    requires { at ≤ length query.now }
    ensures { PartRead query.now (dotted deep) at result }
{
    match query.get(at) {
        Some(&OPEN) => read_bracket(query, at + 1),
        _ => read_short(query, at),
    }
}

// The step that stands at `at`, before the query's end, with the blanks before it.
pub fn read_step(query: &[u8], at: usize) -> StepRead
    requires { at < length query.now }
    ensures { StepAt query.now at result }
{
    let place = query_lexer::skip_blanks(query, at);
    let (deep, (taking, end)) = match query.get(place) {
        Some(&OPEN) => (false, read_bracket(query, place + 1)?),
        Some(&DOT) => match query.get(place + 1) {
            Some(&DOT) => (true, read_deep(query, place + 2)?),
            _ => (false, read_short(query, place + 1)?),
        },
        _ => return Err(Dead { at: place }),
    };
    let found = Found {
        deep,
        place,
        taking,
    };
    Ok((found, end))
}
