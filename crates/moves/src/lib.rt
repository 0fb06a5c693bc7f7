// Characters of a string of the check of a record, by a table of moves: the word of a byte has six bits for each state, which say where the
// byte leads from there.
#![tactic(auto)]

ghost use Rattle.std.specs.Prelude.{◌≡◌, ◌≤◌, ◌<◌, length};
ghost use Rattle.moves.specs.Moves.{MoveAdded, Added, plain_moves, escape_moves, state_of, after_second_of, RowAdded, point_moves};
ghost use Rattle.moves.specs.Moves.{Leads, Follows, Passes, Characters};

use encoding::{ROWS, Row};

// The states, by the first of their bits in a word, which is why they are numbers: nowhere; with one, two or three bytes from 80 to BF due;
// after a first byte whose second byte has bounds of its own; after a backslash; and between two characters, the only odd number, so that
// its lowest bit tells it.
const NOWHERE: u64 = 0;

const ONE_DUE: u64 = 6;

const TWO_DUE: u64 = 12;

const THREE_DUE: u64 = 18;

const AFTER_E0: u64 = 24;

const AFTER_ED: u64 = 30;

const AFTER_F0: u64 = 36;

const AFTER_F4: u64 = 42;

const ESCAPE: u64 = 48;

const BETWEEN: u64 = 57;

// The bits of a state.
const STATE: u64 = 63;

// The states to which the first bytes of the rows of UTF-8 after the first row lead, row by row.
static FIRST: [u64; 8] = [
    ONE_DUE, AFTER_E0, TWO_DUE, AFTER_ED, TWO_DUE, AFTER_F0, THREE_DUE, AFTER_F4,
];

// The bytes of a text for which a table is worth its making.
const LONG: usize = 1024;

// Adds the move that the bytes from `low` to `high` make from one state to another.
fn add_move(table: &mut [u64; 256], low: u8, high: u8, from: u64, to: u64)
    requires { from < 64 }
    ensures { MoveAdded low high from to table.old table.new }
{
    let word = to << from;
    for b in low..=high {
        table[b as usize] |= word;
    }
}

// Adds the moves of bytes that stand for themselves, up to the last of the first row of UTF-8, and of a backslash.
fn add_plain(table: &mut [u64; 256])
    ensures { Added plain_moves table.old table.new }
{
    add_move(table, 0x20, 0x21, BETWEEN, BETWEEN);
    add_move(table, 0x23, 0x5B, BETWEEN, BETWEEN);
    add_move(table, 0x5D, ROWS[0].high, BETWEEN, BETWEEN);
    add_move(table, 0x5C, 0x5C, BETWEEN, ESCAPE);
}

// Adds the moves of the letters that stand for one character after a backslash.
fn add_escapes(table: &mut [u64; 256])
    ensures { Added escape_moves table.old table.new }
{
    for b in b"\"\\/bfnrt" {
        add_move(table, *b, *b, ESCAPE, BETWEEN);
    }
}

// The state after the second of so many bytes.
fn after_second(bytes: u8) -> u64
    ensures { result ≡ state_of (after_second_of bytes) }
{
    match bytes {
        4 => TWO_DUE,
        3 => ONE_DUE,
        _ => BETWEEN,
    }
}

// Adds the moves of a row of UTF-8: its first bytes lead to `state`, and from there its second bytes to where the others are due.
fn add_row(table: &mut [u64; 256], row: Row, state: u64)
    requires { state < 64 }
    ensures { RowAdded row state table.old table.new }
{
    add_move(table, row.low, row.high, BETWEEN, state);
    add_move(
        table,
        row.second_low,
        row.second_high,
        state,
        after_second(row.bytes),
    );
}

// Adds the moves of the rows of UTF-8 after the first.
fn add_rows(table: &mut [u64; 256])
    ensures { Added point_moves table.old table.new }
{
    for (row, state) in ROWS[1..].iter().zip(&FIRST) {
        add_row(table, *row, *state);
    }
}

// Where a reader of a string stands: its state, and the place after the last whole character.
#[derive(Clone, Copy)]
struct Reader {
    state: u64,
    end: usize,
    ghost small: { state < 64 },
}

impl Reader {
    // Between two characters at `at`.
    fn between(at: usize) -> Reader
        ensures { (result.state ≡ BETWEEN) × (result.end ≡ at) }
    {
        Reader {
            state: BETWEEN,
            end: at,
        }
    }
}

// A table of moves, of which each leads where the record grammar's machine goes.
#[derive(Drop)]
pub struct Moves {
    table: [u64; 256],
    ghost leads: { ∥ Leads table ∥₁ },
}

impl Moves {
    // The moves for a text of so many bytes. For a short text there are none.
    pub fn new(size: usize) -> Moves {
        let mut table: [u64; 256] = [0; 256];
        if size >= LONG {
            add_plain(&mut table);
            add_escapes(&mut table);
            add_rows(&mut table);
        }
        Moves { table }
    }

    // The state of a reader after the byte `b`.
    fn follow(&self, b: u8, before: Reader) -> u64
        ensures { Follows b before.state result }
    {
        self.table[b as usize] >> before.state & STATE
    }

    // The reader after the byte at `i`. The lowest bit of its state tells whether a character ends there, and does not wait for the mask.
    fn pass(&self, s: &[u8], i: usize, before: Reader) -> Reader
        requires { i < length s.now }
        ensures { Passes s.now i before.state before.end result.state result.end }
    {
        let state = self.follow(s[i], before);
        let end = if state & 1 == 1 { i + 1 } else { before.end };
        Reader { state, end }
    }

    // The place after the last character to which the moves lead from `at` on, byte by byte.
    fn last_characters(&self, s: &[u8], at: usize) -> usize
        requires { at ≤ length s.now }
        ensures { Characters s.now at result }
    {
        let mut reader = Reader::between(at);
        for i in at..s.len() {
            reader = self.pass(s, i, reader);
            if reader.state == NOWHERE {
                return reader.end;
            }
        }
        reader.end
    }

    // The place after the last character to which the moves lead from `at` on: four bytes at a time up to where they lead nowhere, and the
    // last bytes of the text one at a time. In a short text, whose table has no moves, they are not asked. The loop counts places, since a
    // character's end is one, which a chunk of four bytes would not tell.
    pub fn characters_end(&self, s: &[u8], at: usize) -> usize
        requires { at ≤ length s.now }
        ensures { Characters s.now at result }
    {
        if s.len() < LONG {
            return at;
        }
        let mut i = at;
        let mut reader = Reader::between(at);
        while s.len() - i >= 4 {
            let one = self.pass(s, i, reader);
            let two = self.pass(s, i + 1, one);
            let three = self.pass(s, i + 2, two);
            reader = self.pass(s, i + 3, three);
            if reader.state == NOWHERE {
                return reader.end;
            }
            i += 4;
        }
        self.last_characters(s, reader.end)
    }
}
