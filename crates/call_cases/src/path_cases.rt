// Writes the path of a node of the record, and prints what comes of it.
ghost use Rattle.std.specs.Prelude.{◌≤◌};

use cases::{Stop, changed, read_number};
use std::io;
use woodcrock::write_path;

// What a buffer holds before a call, at each place.
const OLD: u8 = b'.';

// The most bytes of a buffer.
const MAX_BYTES: usize = 64;

// Prints a buffer as the call leaves it: its bytes, and how many at its end are as they were lent.
fn print_buffer(rt: &impl Print, buffer: &[u8]) -> io::Result<()> {
    let end = changed(buffer, OLD);
    print!(rt; " `")?;
    rt.write_all(&buffer[..end])?;
    println!(rt; "` rest {}", buffer.len() - end)
}

// Writes the path of the node at the offset that a text is into a buffer of so many bytes, and prints the three answers and the buffer.
pub fn run_path(rt: &impl Print, text: &[u8], record: &[u8], size: usize) -> Result<(), Stop>
    requires { size ≤ 64 }
{
    let number = read_number(text);
    let offset = number.unwrap_or_else(|bad| bad.value);
    let mut space = [OLD; MAX_BYTES];
    let buffer = &mut space[..size];
    let written = write_path(record, offset, buffer);
    print!(rt;
        "  path {} {} {}",
        written.ground, written.place, written.length
    )?;
    print_buffer(rt, buffer)?;
    number?;
    Ok(())
}
