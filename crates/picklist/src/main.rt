// Reads a query and a record from standard input, and prints the nodes that the query picks out.
#![tactic(auto)]

use report::{OUTPUT_SIZE, print_picklist};
use standard_input::with_input;
use std::io;

// One byte more than the limit is read, so that a longer input is seen to be too long.
const INPUT_SIZE: usize = 65537;

// Prints the nodes for an input.
fn print_nodes(rt: &impl Print, input: &[u8]) -> io::Result<()> {
    let mut out = [0u8; OUTPUT_SIZE];
    let size = print_picklist(input, &mut out);
    rt.write_all(&out[..size])
}

fn main(rt: HostRuntime) -> io::Result<()> {
    with_input::<INPUT_SIZE, _>(&rt, |input| print_nodes(&rt, input))
}
