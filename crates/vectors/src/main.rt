// Runs the published vectors: the file of cases that is standard input, which rust/vectors makes of the suite.
#![tactic(auto)]

use call_cases::run_file;
use standard_input::with_input;
use std::io;

// The most bytes of the file.
const FILE_ROOM: usize = 81920;

fn main(rt: HostRuntime) -> io::Result<()> {
    with_input::<FILE_ROOM, _>(&rt, |file| run_file(&rt, file))
}
