// The place after a container: by the words that are kept of an earlier block, where these reach that far, and else block by block.
#![tactic(auto)]

ghost use Rattle.std.specs.Prelude.{◌≡◌, ◌≤◌, length};
ghost use Rattle.blocks.specs.Counts.{SortedCounted};
ghost use Rattle.json_text.specs.Verdict.{max_bytes};
ghost use Rattle.leap.specs.Brackets.{Leaves};
ghost use Rattle.leap.specs.Passing.{AfterClosing, Kept, Near};

use bits::has;
use blocks::{BLOCK, Before, CountedBlock, sort_counted, sort_full};
use brackets::Found;

// The bytes of eight blocks, and of those before the last of them, at which one looks ahead: a container of fewer is left without a look.
const AHEAD: usize = 8 * BLOCK;

const LOOK: usize = AHEAD - BLOCK;

// Looks at one byte in each of eight blocks, eight blocks before their turn, so that they are at hand by then: whether all are 0, as they
// never are in a JSON text. A shorter part is not looked at.
fn zeros_ahead(rest: &[u8]) -> bool {
    if rest.len() < AHEAD + AHEAD {
        return false;
    }
    let near = rest[512] | rest[576] | rest[640] | rest[704];
    let far = rest[768] | rest[832] | rest[896] | rest[960];
    near | far == 0
}

// The words of the block at the front of a part. The sorter takes a full block straight away, but for one with zeros ahead: some use has
// to be made of that look, or the compiler leaves it out.
fn next_words(rest: &[u8], look: bool, before: Before) -> CountedBlock
    ensures { SortedCounted rest.now before.inside before.odd result.counted }
{
    match rest.first_chunk::<BLOCK>() {
        Some(block) if !(look && zeros_ahead(rest)) => sort_full(block, before),
        _ => sort_counted(rest, before),
    }
}

// Leaves the containers of a record. What it keeps are the end of the block in which it left one, and that block's words three and four.
#[derive(Drop)]
pub struct Leaper<'a> {
    // The record.
    pub bytes: &'a [u8],
    end: usize,
    opening: u64,
    closing: u64,
    pub ghost record_len_bound: { length bytes.now ≤ max_bytes },
    ghost kept: { Kept bytes.now end opening closing },
}

impl<'a> Leaper<'a> {
    // Before any container, with nothing kept.
    pub fn new(record: &'a [u8]) -> Self
        requires { length «record».now ≤ max_bytes }
        ensures { result.bytes.now ≡ «record».now }
    {
        Leaper {
            bytes: record,
            end: 0,
            opening: 0,
            closing: 0,
        }
    }

    // The place after the closing bracket of the container whose opening bracket stands just before `at`, block by block; the length
    // where none closes it. The words of the block that has the closing bracket are kept.
    fn leave_blocks(&mut self, at: usize) -> usize
        ensures after_closing { AfterClosing self.old.bytes.now at result }
        ensures same_record { self.new.bytes.now ≡ self.old.bytes.now }
    {
        let record = self.bytes;
        let mut i = at;
        let mut before = Before {
            inside: false,
            odd: false,
        };
        let mut depth = 1;
        // By places, since one looks ahead of the block.
        while i < record.len() {
            let look = (i - at) % AHEAD == LOOK;
            let block = next_words(&record[i..], look, before);
            let w = block.counted.words;
            match brackets::pass_block(block, depth) {
                Found::At(place) => {
                    self.end = i + BLOCK;
                    self.opening = w.opening;
                    self.closing = w.closing;
                    return i + place + 1;
                }
                Found::Open(open) => depth = open,
            }
            if record.len() - i < BLOCK {
                return record.len();
            }
            before = Before {
                inside: w.inside,
                odd: w.odd,
            };
            i += BLOCK;
        }
        i
    }

    // The same by the words that are kept, where these have both brackets. Their opening bracket just before `at` shows that they are the
    // words from there on.
    fn leave_near(&self, at: usize) -> Option<usize>
        requires { at ≤ max_bytes }
        ensures { Near self.now.bytes.now at result }
    {
        if at >= self.end {
            return None;
        }
        let ahead = self.end - at;
        if ahead >= BLOCK {
            return None;
        }
        let near = BLOCK - ahead;
        if !has(self.opening, near - 1) {
            return None;
        }
        match brackets::find_closing(self.opening >> near, self.closing >> near, 1) {
            Found::At(place) => Some(at + place + 1),
            Found::Open(_) => None,
        }
    }

    // The place after the closing bracket of the container whose opening bracket stands just before `at`.
    pub fn leave(&mut self, at: usize) -> usize
        ensures leaves { Leaves self.old.bytes.now at result }
        ensures same_record { self.new.bytes.now ≡ self.old.bytes.now }
    {
        if at >= self.bytes.len() {
            return at;
        }
        match self.leave_near(at) {
            Some(end) => end,
            None => self.leave_blocks(at),
        }
    }
}
