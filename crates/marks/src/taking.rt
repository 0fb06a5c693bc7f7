// The hits of a child, of which the steps are asked one kind at a time, for whom no `Query` is at hand.
ghost use Rattle.std.specs.Prelude.{◌≡◌, List, ℕ, ◌≤◌, length};
ghost use Rattle.std.specs.Int.Bits.{bit_and};
ghost use Rattle.std.proofs.Math.Seq.{slice};
ghost use Rattle.encoding.specs.Points.{Utf8Of};
ghost use Rattle.encoding.specs.Unescape.{Spells};
ghost use Rattle.query.specs.Verdict.{max_steps};
ghost use Rattle.query_parser.specs.declared.compiled.Kinds.{Kinds};
ghost use Rattle.query_parser.specs.Holds.{Fits};
ghost use Rattle.select.specs.Nodes.{member, element};
ghost use Rattle.marks.specs.Advances.{Named, Taken};

use crate::{Child, chosen};
use names::Names;
use query_parser::Kinds;

// Of the marks, those whose next step takes a member whose name is the record's bytes from `x` to `y`, where these have no escapes.
pub fn taking_member(
    names: &Names,
    kinds: Kinds,
    operands: &[u64; 16],
    marks: u16,
    record: &[u8],
    x: usize,
    y: usize,
) -> u16
    requires fits { Fits kinds operands.now }
    requires x_le_y { (x ≤ y) × (y ≤ length «record».now) }
    ensures { (points : List ℕ) → Utf8Of (slice x y «record».now) points
        → Taken names.now kinds operands.now marks (member points) result }
{
    let every = marks & kinds.every;
    let live = marks & kinds.named;
    if live == 0 {
        return every;
    }
    let name = &record[x..y];
    every | chosen(names, operands, kinds.count, live, Child::Member(name))
}

// Of the marks, those whose next step takes a member whose name the record's bytes from `x` to `y` spell, with escapes among them. The masks
// and the number of the steps come one by one.
pub fn taking_escaped(
    names: &Names,
    operands: &[u64; 16],
    every: u16,
    named: u16,
    count: usize,
    marks: u16,
    record: &[u8],
    x: usize,
    y: usize,
) -> u16
    requires count_le_max_steps { (count ≤ max_steps) × Named named operands.now }
    requires x_le_y { (x ≤ y) × (y ≤ length «record».now) }
    ensures { (kinds : Kinds) → kinds.every ≡ every → kinds.named ≡ named → kinds.count ≡ count
        → (points : List ℕ) → Spells (slice x y «record».now) points
        → Taken names.now kinds operands.now marks (member points) result }
{
    let asked = marks & named;
    if asked == 0 {
        return marks & every;
    }
    let name = &record[x..y];
    (marks & every) | chosen(names, operands, count, asked, Child::Escaped(name))
}

// Of the marks, those whose next step takes a member, whatever its name, where none of these steps has a name.
pub fn taking_nameless(kinds: Kinds, marks: u16) -> u16
    requires { bit_and marks kinds.named ≡ 0 }
    ensures { (names operands points : List ℕ) → Taken names kinds operands marks (member points) result }
{
    marks & kinds.every
}

// Of the marks, those whose next step takes the element at the position `index`.
pub fn taking_element(kinds: Kinds, operands: &[u64; 16], marks: u16, index: usize) -> u16
    requires { kinds.count ≤ max_steps }
    ensures { (names : List ℕ) → Taken names kinds operands.now marks (element index) result }
{
    let every = marks & kinds.every;
    let live = marks & kinds.positioned;
    if live == 0 {
        return every;
    }
    every | chosen(&[], operands, kinds.count, live, Child::Element(index))
}
