// Runs the sample rows of document 01 and its limits, both sides, and the places at which a walk can go wrong: the file of cases
// that is standard input.
#![tactic(auto)]

use call_cases::run_file;
use standard_input::with_input;
use std::io;

// The most bytes of the file.
const FILE_ROOM: usize = 32768;

fn main(rt: HostRuntime) -> io::Result<()> {
    with_input::<FILE_ROOM, _>(&rt, |file| run_file(&rt, file))
}
