// The bracket of a block that closes the last open one, by the block's words three and four.
#![tactic(auto)]

ghost use Rattle.std.specs.Prelude.{◌≡◌, true, ◌+◌, ◌≤◌, ◌<◌};
ghost use Rattle.bits.specs.Bits.{bit};
ghost use Rattle.brackets.specs.Closing.{Cleared, FindsClosing};
ghost use Rattle.brackets.specs.Depth.{after_place};
ghost use Rattle.json_text.specs.Verdict.{max_bytes};

use bits::{has, lowest};
use blocks::CountedBlock;

// Where the last of some open brackets is closed.
#[derive(Clone, Copy)]
pub enum Found {
    // By the bracket at this place of the block.
    At(usize),
    // Not in the block, after which so many are open.
    Open(usize),
}

// The word without its bit i.
fn without(w: u64, i: usize) -> u64
    requires i_bound { i < 64 }
    requires w_value { bit i w ≡ true }
    ensures { Cleared w i result }
{
    w ^ (1u64 << i)
}

// How many brackets are open after the bracket at place i of a block, where `level` are before it.
fn next_level(opening: u64, i: usize, level: usize) -> usize
    requires { (i < 64) × (1 ≤ level) × (level ≤ max_bytes + 65) }
    ensures { result ≡ after_place (bit i opening) true level }
{
    if has(opening, i) {
        return level + 1;
    }
    level - 1
}

// Finds the bracket that closes the last of `depth` open ones, bracket by bracket.
pub fn find_closing(opening: u64, closing: u64, depth: usize) -> Found
    requires { (1 ≤ depth) × (depth ≤ max_bytes + 1) }
    ensures { FindsClosing opening closing depth result }
{
    let mut left = opening | closing;
    let mut level = depth;
    while left != 0 {
        let i = lowest(left) as usize;
        left = without(left, i);
        level = next_level(opening, i, level);
        if level == 0 {
            return Found::At(i);
        }
    }
    Found::Open(level)
}

// The same in a block whose brackets are counted: with fewer closing brackets than are open it is passed whole.
pub fn pass_block(block: CountedBlock, depth: usize) -> Found
    requires { (1 ≤ depth) × (depth ≤ max_bytes + 1) }
    ensures { FindsClosing block.counted.words.opening block.counted.words.closing depth result }
{
    let counted = block.counted;
    let opened = counted.opened as usize;
    let closed = counted.closed as usize;
    if closed < depth {
        return Found::Open(depth + opened - closed);
    }
    find_closing(counted.words.opening, counted.words.closing, depth)
}
