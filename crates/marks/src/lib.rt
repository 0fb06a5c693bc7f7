// Marks as the bits of one 16-bit number: which steps take a child, and the child's marks.
#![tactic(auto)]

ghost use Rattle.std.specs.Prelude.{◌≡◌, ◌&&◌, List, ℕ, ◌≤◌, ◌<◌, eqb, length};
ghost use Rattle.std.proofs.Math.Seq.{slice};
ghost use Rattle.bits.specs.Bits.{bit};
ghost use Rattle.json_text.specs.Verdict.{max_depth};
ghost use Rattle.query.specs.Verdict.{max_steps};
ghost use Rattle.query_parser.specs.Holds.{name_start_of, name_end_of, Fits};
ghost use Rattle.select.specs.Nodes.{Label};
ghost use Rattle.select.specs.Ways.{frame_if};
ghost use Rattle.marks.specs.Advances.{AtHand, asked_of, child_is, IsChild, Chosen, Taken, Advances};

use names::{Names, same_decoded, same_written};
use query_parser::{Kinds, name_end, name_start};

mod taking;

pub use taking::{taking_element, taking_escaped, taking_member, taking_nameless};

// A query as a walk asks it: its names, the kinds of its steps, and their operands.
#[derive(Drop)]
pub struct Query<'a> {
    pub names: &'a Names,
    pub kinds: Kinds,
    pub operands: [u64; 16],
    ghost fits: { Fits kinds operands },
}

// A child as the steps are asked of it: a member whose name is written without escapes, one whose name may have some, each by the bytes of
// its name, or the element at a position.
#[derive(Clone, Copy)]
pub enum Child<'a> {
    Member(&'a [u8]),
    Escaped(&'a [u8]),
    Element(usize),
}

// A child's marks, and whether it is picked out.
#[derive(Clone, Copy)]
pub struct Advanced {
    pub marks: u16,
    pub picked: bool,
}

// The name whose bounds are this operand.
fn name_of(names: &[u8], operand: u64) -> &[u8]
    requires { (name_start_of operand ≤ name_end_of operand) × (name_end_of operand ≤ length names.now) }
    ensures { result.now ≡ slice (name_start_of operand) (name_end_of operand) names.now }
{
    &names[name_start(operand)..name_end(operand)]
}

// Whether mark `i` is among the marks, and step `i` takes the child by its name or its position. Only a mark says that an operand is a name's.
fn takes(names: &[u8], operands: &[u64; 16], marks: u16, i: usize, child: Child<'_>) -> bool
    requires i_lt_max_steps { i < max_steps }
    requires at_hand { AtHand names.now operands.now child marks }
    ensures { result ≡ (bit i marks && child_is names.now operands.now child.entry i) }
{
    if marks >> i & 1 != 1 {
        return false;
    }
    let operand = operands[i];
    match child {
        Child::Member(name) => same_written(name_of(names, operand), name),
        Child::Escaped(name) => same_decoded(name_of(names, operand), name),
        Child::Element(index) => operand == index as u64,
    }
}

// Of marks of so many steps that take such a child by name or by position, those that take this one. Steps before the first mark and after
// the last are not asked.
fn chosen(names: &[u8], operands: &[u64; 16], count: usize, marks: u16, child: Child<'_>) -> u16
    requires count_le_max_steps { count ≤ max_steps }
    requires at_hand { AtHand names.now operands.now child marks }
    ensures { Chosen count marks (child_is names.now operands.now child.entry) result }
{
    let mut hits: u16 = 0;
    for i in bits::lowest(marks as u64) as usize..count {
        if marks >> i == 0 {
            return hits;
        }
        let taken = takes(names, operands, marks, i, child);
        hits = bits::with_bit(hits, i, taken);
    }
    hits
}

// A child's marks, and whether it is picked out, from its parent's marks and the hits, those of them whose next step takes it.
#[inline(always)]
pub fn advance(kinds: Kinds, marks: u16, hits: u16) -> Advanced
    requires { kinds.count ≤ max_steps }
    ensures { (names operands : List ℕ) (l : Label) → Taken names kinds operands marks l hits
        → Advances names kinds operands marks l result.marks result.picked }
{
    let count = kinds.count;
    if count == 0 {
        return Advanced {
            marks: 0,
            picked: false,
        };
    }
    let last = count - 1;
    let all = ((1u32 << count) - 1) as u16;
    let picked = hits >> last & 1 == 1;
    Advanced {
        marks: (hits << 1 | (marks & kinds.deep)) & all,
        picked,
    }
}

impl Query<'_> {
    // The steps that can take such a child by its name or its position.
    fn asked(&self, child: Child<'_>) -> u16
        ensures { result ≡ asked_of self.now.kinds child.entry }
    {
        match child {
            Child::Member(_) => self.kinds.named,
            Child::Escaped(_) => self.kinds.named,
            Child::Element(_) => self.kinds.positioned,
        }
    }

    // Of the marks, those whose next step takes the child.
    #[inline(always)]
    fn taking(&self, marks: u16, child: Child<'_>) -> u16
        ensures { (l : Label) → IsChild child.entry l → Taken self.now.names.now self.now.kinds self.now.operands marks l result }
    {
        let every = marks & self.kinds.every;
        let live = marks & self.asked(child);
        if live == 0 {
            return every;
        }
        let names = self.names;
        every | chosen(names, &self.operands, self.kinds.count, live, child)
    }

    // A child's marks, and whether it is picked out, from its parent's marks.
    #[inline(always)]
    pub fn advance(&self, marks: u16, child: Child<'_>) -> Advanced
        ensures { (l : Label) → IsChild child.entry l
            → Advances self.now.names.now self.now.kinds self.now.operands marks l result.marks result.picked }
    {
        let count = self.kinds.count;
        if count == 0 {
            return advance(self.kinds, marks, 0);
        }
        advance(self.kinds, marks, self.taking(marks, child))
    }
}

// The frames with a container whose marks these are: one more where they differ from those of the container around it.
pub fn framed(around: u16, marks: u16, frames: usize) -> usize
    requires { frames < max_depth }
    ensures { result ≡ frame_if (eqb around marks) frames }
{
    if around == marks {
        return frames;
    }
    frames + 1
}
