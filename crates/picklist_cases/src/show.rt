// Runs an input and prints what comes of it.
use report::{OUTPUT_SIZE, print_picklist};
use std::io;

// What the buffer holds before a call, at each place.
const OLD: u8 = b'.';

// Prints what comes of an input: the text, its size, and how many bytes of the buffer beyond it were changed.
pub fn run_input(rt: &impl Print, input: &[u8]) -> io::Result<()> {
    let mut out = [OLD; OUTPUT_SIZE];
    let size = print_picklist(input, &mut out);
    let (text, beyond) = out.split_at(size);
    let changed = beyond.iter().filter(|&&byte| byte != OLD).count();
    rt.write_all(text)?;
    println!(rt; "({size} bytes, {changed} changed beyond)")
}
