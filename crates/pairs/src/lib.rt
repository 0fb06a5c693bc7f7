// Pairs of the lent list, and the peak: what a walk writes and counts at a node.
#![tactic(auto)]

ghost use Rattle.std.specs.Prelude.{◌≡◌, ◌≤◌};
ghost use Rattle.automaton.specs.Halves.{end_pair};
ghost use Rattle.json_text.specs.Verdict.{max_bytes};
ghost use Rattle.pairs.specs.Pairs.{plus_one, Writes, Begins, Raises};

// What a walk counts: the pairs used, the most frames at once, and the first byte of the first node left over, if there is one.
#[derive(Clone, Copy)]
pub struct Counts {
    pub used: usize,
    pub peak: usize,
    pub stop: Option<usize>,
}

// The numbers of a pair: where a node begins, and the place after it.
#[derive(Clone, Copy)]
enum Half {
    First,
    End,
}

// Writes a place of the record into a pair of the list. Nothing is written where the list has no such pair.
fn write(list: &mut [u32], pair: usize, half: Half, place: usize)
    requires { place ≤ max_bytes }
    ensures { Writes list.old pair half place list.new }
{
    if list.len() / 2 <= pair {
        return;
    }
    let slot = match half {
        Half::First => pair * 2,
        Half::End => pair * 2 + 1,
    };
    list[slot] = place as u32;
}

// Takes the next pair for a node that is picked out and writes its first byte there: the pair, which waits for its end. Where no pair is left
// the walk stops at this node. Nothing changes for a node that is not picked out, and nothing after a stop.
pub fn begin(list: &mut [u32], picked: bool, counts: &mut Counts, at: usize) -> Option<usize>
    requires { at ≤ max_bytes }
    ensures { Begins picked list.old counts.old at list.new counts.new result }
{
    if counts.stop.is_some() {
        return None;
    }
    if !picked {
        return None;
    }
    let pair = counts.used;
    if pair >= list.len() / 2 {
        counts.stop = Some(at);
        return None;
    }
    write(list, pair, Half::First, at);
    counts.used = pair + 1;
    Some(pair)
}

// Writes the end of a node into the pair that waits for it, if one does.
pub fn finish(list: &mut [u32], wait: Option<usize>, end: usize)
    requires { end ≤ max_bytes }
    ensures { list.new ≡ end_pair (plus_one wait) end list.old }
{
    if let Some(pair) = wait {
        write(list, pair, Half::End, end);
    }
}

// Counts the frames where a container with so many is met. Nothing changes after a stop.
pub fn raise(counts: &mut Counts, frames: usize)
    ensures { Raises counts.old frames counts.new }
{
    if counts.stop.is_none() {
        counts.peak = counts.peak.max(frames);
    }
}
