// Runs a query on the record through both listers, and prints what comes of it.
ghost use Rattle.std.specs.Prelude.{◌≤◌};

use cases::{Bytes, Stop, changed};
use std::io;
use woodcrock::{Answer, list_jumping, list_plain};

// What a list holds before a call, at each place.
const OLD: u32 = 7777;

// The most numbers of a list.
pub const MAX_NUMBERS: usize = 64;

// The most bytes of a query, and one more.
pub const QUERY_ROOM: usize = 2048;

// Prints a list as a call leaves it: its numbers, and how many at its end are as they were lent.
fn print_list(rt: &impl Print, list: &[u32]) -> io::Result<()> {
    let end = changed(list, OLD);
    print!(rt; " list")?;
    for number in &list[..end] {
        print!(rt; " {number}")?;
    }
    println!(rt; " rest {}", list.len() - end)
}

// Lends a lister a list of so many numbers, and prints its name, its four answers, and the list after the call.
fn run_lister<F: FnOnce(&mut [u32]) -> Answer>(
    rt: &impl Print,
    name: &str,
    numbers: usize,
    lister: F,
) -> io::Result<()>
    requires listed { numbers ≤ 64 }
    requires callable { F.IsAlwaysCallable lister }
{
    let mut space = [OLD; MAX_NUMBERS];
    let list = &mut space[..numbers];
    let answer = lister(list);
    print!(rt;
        "  {name} {} {} {} {}",
        answer.ground, answer.place, answer.pairs, answer.peak
    )?;
    print_list(rt, list)
}

// Runs both listers, each with a list of its own of so many numbers.
pub fn run_query(rt: &impl Print, text: &[u8], record: &[u8], numbers: usize) -> Result<(), Stop>
    requires { numbers ≤ 64 }
{
    let mut bytes = Bytes::<QUERY_ROOM>::new();
    let written = bytes.write(text);
    let query = bytes.as_slice();
    run_lister(rt, "plain", numbers, |list| list_plain(query, record, list))?;
    run_lister(
        rt,
        "jumping",
        numbers,
        |list| list_jumping(query, record, list),
    )?;
    Ok(written?)
}
