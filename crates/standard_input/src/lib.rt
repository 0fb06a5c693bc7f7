// Reads what a program is given, into a lent buffer or into a room of its own that it lends.
#![tactic(auto)]

ghost use Rattle.std.specs.Prelude.{ℕ, ◌^◌, ◌≤◌, ◌<◌, List, length, take, IfOk, OnErr};
ghost use Rattle.std.specs.Fn.{FnOnceReturnsAt};
ghost use Rattle.std.specs.Io.KnownBytes.{Consumes, IsAtEnd};

use std::io;
use std::io::{Input, Read};

// Reads until the buffer is full or the input ends, and answers how many bytes were read: they stand at the buffer's start. After an
// error the bytes that were read before it stand there.
pub fn read_full<R: Read>(input: &mut R, buffer: &mut [u8]) -> io::Result<usize>
    ensures in_bounds { IfOk result (λ size. size ≤ length buffer.old) }
    ensures bytes { IfOk result (λ size. Consumes (R.remaining input.old) (R.remaining input.new) (take size buffer.new)) }
    ensures all { IfOk result (λ size. size < length buffer.old → IsAtEnd (R.remaining input.new)) }
    ensures err { OnErr result ((size : ℕ) × (size ≤ length buffer.old) × Consumes (R.remaining input.old) (R.remaining input.new) (take size buffer.new)) }
{
    let mut size = 0;
    while size < buffer.len() {
        let more = input.read(&mut buffer[size..])?;
        if more == 0 {
            break;
        }
        size += more;
    }
    Ok(size)
}

// Reads standard input into a room of so many bytes, and lends what is read.
pub fn with_input<const ROOM: usize, F: FnOnce(&[u8]) -> io::Result<()>>(
    rt: &impl Input,
    run: F,
) -> io::Result<()>
    requires room { ROOM < 2 ^ 63 }
    requires callable { F.IsAlwaysCallable run }
    ensures { IfOk result (λ u. (bytes : List ℕ) × (length bytes ≤ ROOM) × FnOnceReturnsAt F.FnOnce run bytes (Ok u)) }
{
    let mut room = [0u8; ROOM];
    let size = read_full(&mut rt.reader(), &mut room)?;
    run(&room[..size])
}
