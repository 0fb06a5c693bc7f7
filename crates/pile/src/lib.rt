// Where the jumping walk stands, and the pile: a frame for each open container whose marks differ from those around it.
#![tactic(auto)]

ghost use Rattle.std.specs.Prelude.{◌≡◌, ◌<◌, ◌≤◌};
ghost use Rattle.json_text.specs.Verdict.{max_bytes, max_depth};
ghost use Rattle.pile.specs.FrameDepth.{narrowed, widened};
ghost use Rattle.pile.specs.Pile.{kept};
ghost use Rattle.pile.specs.Moves.{Pops, Leaves, CountsOn, Lost, PassedTo, EnteredAt, Skipped};

use json_text::MAX_DEPTH;
use pairs::{Counts, finish};
use walk::Coming;

// Where the walk stands: the place; whether an item is ahead there, or else a value has been passed; how many containers are open; the
// frames on the pile and the marks of the innermost container; and what has been counted.
#[derive(Clone, Copy)]
pub struct Standing {
    pub at: usize,
    pub depth: usize,
    pub frames: usize,
    pub counts: Counts,
    pub marks: u16,
    pub item: bool,
}

// A frame: the depth around the container that it was pushed for, in 16 bits, and the marks around it.
#[derive(Clone, Copy)]
pub struct Frame {
    pub depth: u16,
    pub marks: u16,
}

// What is kept of an open container: the pair that waits for its end, its opening bracket, and the position of its item that is ahead or in
// which the walk stands.
#[derive(Clone, Copy)]
pub struct Container {
    pub wait: Option<usize>,
    pub count: u32,
    pub bracket: u8,
}

// The pile: its frames, the first pushed first, and the open containers by their depth.
#[derive(Drop)]
pub struct Pile {
    pub frames: [Frame; MAX_DEPTH],
    pub containers: [Container; MAX_DEPTH],
}

// The frames and the marks around a container that is left.
#[derive(Clone, Copy)]
pub struct Around {
    pub frames: usize,
    pub marks: u16,
}

// A slot of the pile in which nothing has been kept.
pub const NO_FRAME: Frame = Frame { depth: 0, marks: 0 };

pub const NO_CONTAINER: Container = Container {
    wait: None,
    count: 0,
    bracket: 0,
};

// A depth in 16 bits, as a frame holds it. Every depth of a record comes back from `widen_depth` unchanged.
fn narrow_depth(depth: usize) -> u16
    requires { depth ≤ max_depth }
    ensures { result ≡ narrowed depth }
{
    depth as u16
}

// The depth that a frame holds in 16 bits.
fn widen_depth(level: u16) -> usize
    ensures { result ≡ widened level }
{
    level as usize
}

impl Pile {
    // Keeps the depth and the marks around a container in the slot after the topmost frame, which counts once there is one frame more; and, at
    // the container's depth, the pair that waits for its end and its bracket: the first of its items is at position 0.
    fn push(&mut self, frames: usize, depth: usize, marks: u16, wait: Option<usize>, bracket: u8)
        requires { (frames < max_depth) × (depth < max_depth) }
        ensures { self.new ≡ kept self.old frames depth marks wait bracket }
    {
        self.frames[frames] = Frame {
            depth: narrow_depth(depth),
            marks,
        };
        self.containers[depth] = Container {
            wait,
            count: 0,
            bracket,
        };
    }

    // The frames and the marks around a container at a depth that is left: what the topmost frame holds if it is the container's, and else the
    // same.
    pub fn pop_frame(&self, frames: usize, depth: usize, marks: u16) -> Around
        requires { frames ≤ max_depth }
        ensures { Pops self.now frames depth marks result.frames result.marks }
    {
        if frames == 0 {
            return Around { frames, marks };
        }
        let top = frames - 1;
        let frame = self.frames[top];
        let level = widen_depth(frame.depth);
        if level != depth {
            return Around { frames, marks };
        }
        Around {
            frames: top,
            marks: frame.marks,
        }
    }

    // Counts one item more of the container at a depth.
    pub fn count_item(&mut self, depth: usize)
        requires { depth < max_depth }
        ensures { CountsOn self.old depth self.new }
    {
        let mut container = self.containers[depth];
        container.count = container.count.wrapping_add(1);
        self.containers[depth] = container;
    }
}

impl Standing {
    // Out of the innermost container: the frames and the marks around it are what the pile says of its depth.
    pub fn leave(&mut self, pile: &Pile)
        requires { (1 ≤ self.old.depth) × (self.old.frames ≤ max_depth) }
        ensures { Leaves pile.now self.old self.new }
    {
        self.depth -= 1;
        let around = pile.pop_frame(self.frames, self.depth, self.marks);
        self.frames = around.frames;
        self.marks = around.marks;
    }

    // The end of the walk at bytes that no tree explains.
    pub fn lose(&mut self, at: usize)
        requires { at ≤ max_bytes }
        ensures { Lost at self.old self.new }
    {
        self.at = at + 1;
        self.item = false;
        self.depth = 0;
    }

    // Past a value that ends at `end`, which goes into the pair that waits for it.
    pub fn pass(&mut self, list: &mut [u32], wait: Option<usize>, end: usize)
        requires { end ≤ max_bytes }
        ensures { PassedTo list.old list.new wait end self.old self.new }
    {
        finish(list, wait, end);
        self.at = end;
        self.item = false;
    }

    // Enters the container ahead, up to its first item at `first`, with so many frames, and keeps what is needed when it is left.
    pub fn enter(
        &mut self,
        pile: &mut Pile,
        bracket: u8,
        first: usize,
        v: Coming,
        wait: Option<usize>,
        frames: usize,
    )
        requires { (self.old.frames < max_depth) × (self.old.depth < max_depth) }
        ensures { EnteredAt pile.old pile.new bracket first wait frames v self.old self.new }
    {
        pile.push(self.frames, self.depth, self.marks, wait, bracket);
        self.at = first;
        self.item = true;
        self.depth += 1;
        self.frames = frames;
        self.marks = v.marks;
    }
}

// Whether a container with these marks is passed without a look inside: exactly if it has none, or the list was full.
pub fn is_dead(marks: u16, stop: Option<usize>) -> bool
    ensures { Skipped marks stop result }
{
    if stop.is_some() {
        return true;
    }
    marks == 0
}
