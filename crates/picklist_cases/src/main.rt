// Runs a file of cases of the program `picklist`. Each line of it is printed as it stands, and below an input what the program prints
// for it; at the end stands the number of inputs. docs/SAMPLES.md has the lines.
#![tactic(auto)]

mod show;

use cases::{Bytes, Stop, run_lines};
use show::run_input;
use standard_input::with_input;
use std::io;

// The most bytes of the file.
const FILE_ROOM: usize = 16384;

// The most bytes of an input, and one more: an input may have one byte more than the program takes.
const INPUT_ROOM: usize = 65538;

// What the first byte of a line says of it.
const INPUT: u8 = b'i';

// Runs the input that a text stands for.
fn run_text(rt: &impl Print, text: &[u8]) -> Result<(), Stop> {
    let mut input = Bytes::<INPUT_ROOM>::new();
    let written = input.write(text);
    run_input(rt, input.as_slice())?;
    Ok(written?)
}

// Does what a line says, which is to run an input.
fn run_line(rt: &impl Print, key: u8, text: &[u8]) -> Result<bool, Stop> {
    match key {
        INPUT => run_text(rt, text)?,
        _ => return Err(Stop::BadLine),
    }
    Ok(true)
}

fn main(rt: HostRuntime) -> io::Result<()> {
    with_input::<FILE_ROOM, _>(&rt, |file| {
        run_lines(&rt, file, |key, text| run_line(&rt, key, text))
    })
}
