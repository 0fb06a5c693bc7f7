// The steps of a query in the form that the walks use: kinds as bits, and an operand for each step, the name or the position that it takes.
// The names themselves stand decoded in a buffer.
ghost use Rattle.std.specs.Prelude.{◌≡◌, ◌<◌};
ghost use Rattle.query.specs.Verdict.{max_steps};
ghost use Rattle.query_parser.specs.Compiles.{Stands, Decodes, Adds};
ghost use Rattle.query_parser.specs.Holds.{name_start_of, name_end_of, no_steps_of};

use names::{Names, write_name};
use query_steps::{Found, Taking};

pub const MAX_STEPS: usize = 16;

// A name's bounds are one number: the place of its first byte times this, and the place after its last.
const BOUND: u64 = 65_536;

// The kinds of a query's steps: how many steps there are, and for each the bit of its number in the masks of deep steps, of those that
// take `*`, of those that take a name and of those that take a position.
#[derive(Clone, Copy, Debug, Default, PartialEq, Eq)]
pub struct Kinds {
    pub count: usize,
    pub deep: u16,
    pub every: u16,
    pub named: u16,
    pub positioned: u16,
}

// The steps of a query: their kinds, and the operand of each. That of a step with a name is the name's bounds in the buffer as one number,
// its first byte's place times 65,536 and the place after its last; that of a step with a position is the position; that of `*` is 0.
#[derive(Drop)]
pub struct Compiled {
    pub kinds: Kinds,
    pub operands: [u64; MAX_STEPS],
}

// The place of the first byte of a name, from its step's operand.
pub fn name_start(operand: u64) -> usize
    ensures { result ≡ name_start_of operand }
{
    (operand / BOUND) as usize
}

// The place after the last byte of a name, from its step's operand.
pub fn name_end(operand: u64) -> usize
    ensures { result ≡ name_end_of operand }
{
    (operand % BOUND) as usize
}

// No steps: every number is 0.
pub fn no_steps() -> Compiled
    ensures { result ≡ no_steps_of }
{
    Compiled {
        kinds: Kinds::default(),
        operands: [0; MAX_STEPS],
    }
}

// The operand of a step. A name goes decoded into the buffer, from the place on that it has in the query.
pub fn decode(query: &[u8], found: Found, names: &mut Names) -> u64
    requires { Stands query.now found.taking }
    ensures { Decodes query.now found names.old names.new result }
{
    match found.taking {
        Taking::Every => 0,
        Taking::Name(start, stop) => {
            let end = write_name(&query[start..stop], names, start);
            start as u64 * BOUND + end as u64
        }
        Taking::Position(position) => position,
    }
}

impl Compiled {
    // Adds a step with its operand, for which there is room.
    pub fn push(&mut self, found: Found, operand: u64)
        requires { self.old.kinds.count < max_steps }
        ensures { Adds self.old found operand self.new }
    {
        let kinds = &mut self.kinds;
        let k = kinds.count;
        kinds.deep = bits::with_bit(kinds.deep, k, found.deep);
        match found.taking {
            Taking::Every => kinds.every = bits::with_bit(kinds.every, k, true),
            Taking::Name(_, _) => kinds.named = bits::with_bit(kinds.named, k, true),
            Taking::Position(_) => kinds.positioned = bits::with_bit(kinds.positioned, k, true),
        }
        kinds.count = k + 1;
        self.operands[k] = operand;
    }
}
