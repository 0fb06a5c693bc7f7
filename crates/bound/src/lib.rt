// How large the pile gets: a bound on the frames of every listing, from the query alone.
#![tactic(auto)]

ghost use Rattle.std.specs.Prelude.{List, ◌≡◌, ◌≤◌};
ghost use Rattle.answers.specs.Bound.{BoundsPile};
ghost use Rattle.query.specs.Steps.{Step};
ghost use Rattle.query.specs.Verdict.{max_steps};
ghost use Rattle.select.specs.PileBoundOf.{pile_bound};
ghost use Rattle.bound.specs.Told.{DeepSteps, told};

use lister::admit;
use names::{NAMES_SIZE, Names};

// A shortest record, which is taken. The query is admitted beside it, by the function that admits it for the listers.
const SHORTEST: [u8; 1] = [b'0'];

// The most frames of any pile: one for each level of nesting that is taken, but for the root's.
const MAX_FRAMES: u32 = 511;

// What is told of a query: the ground of a refusal, 0 if there is none; its place; whether its steps bound the pile; the most frames that
// the pile can come to.
#[repr(C)]
#[derive(Drop)]
pub struct Bound {
    pub ground: u32,
    pub place: usize,
    pub bounded: bool,
    pub frames: u32,
}

// The most frames that so many steps leave the pile, of which those are deep whose bits are on; none where they bound nothing.
fn frames_of(count: usize, deep: u16) -> Option<u32>
    requires { count ≤ max_steps }
    ensures { (q : List Step) → DeepSteps q count deep → told result ≡ pile_bound q }
{
    let mut found = false;
    for i in 0..count {
        let next = bits::has(deep as u64, i);
        if found && !next {
            return None;
        }
        found = next;
    }
    if found {
        return Some((count - 1) as u32);
    }
    Some(count as u32)
}

// How many frames the pile can come to, in every record, where the query is listed by either walk: by its steps, where all plain steps
// stand before all deep ones, and else as many as a record that is taken has levels for.
pub fn bound_pile(query: &[u8]) -> Bound
    ensures { BoundsPile query.now result.ground result.place result.bounded result.frames }
{
    let mut names: Names = [0; NAMES_SIZE];
    match admit(query, &SHORTEST, &mut names) {
        Err(refusal) => Bound {
            ground: refusal.ground.number(),
            place: refusal.place,
            bounded: false,
            frames: 0,
        },
        Ok(steps) => {
            let kinds = steps.kinds;
            let frames = frames_of(kinds.count, kinds.deep);
            Bound {
                ground: 0,
                place: 0,
                bounded: frames.is_some(),
                frames: frames.unwrap_or(MAX_FRAMES),
            }
        }
    }
}
