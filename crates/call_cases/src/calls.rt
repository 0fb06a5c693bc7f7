// Runs the value finder, the value reader and the block sorter on the record, and prints what comes of it.
use cases::{Stop, read_number};
use std::io;
use woodcrock::{Words, find_value, read_value, sort_block};

// The bytes of a block.
const BLOCK: usize = 64;

// Finds the value at an offset, and prints the three answers.
fn run_finder(rt: &impl Print, record: &[u8], offset: usize) -> io::Result<()> {
    let found = find_value(record, offset);
    println!(rt; "  finder {} {} {}", found.ground, found.place, found.end)
}

// Reads the value at an offset, and prints it.
fn run_reader(rt: &impl Print, record: &[u8], offset: usize) -> io::Result<()> {
    print!(rt; "  reader `")?;
    rt.write_all(read_value(record, offset))?;
    println!(rt; "`")
}

// Finds and reads the value at the offset that a text is.
pub fn run_value(rt: &impl Print, text: &[u8], record: &[u8]) -> Result<(), Stop> {
    let number = read_number(text);
    let offset = number.unwrap_or_else(|bad| bad.value);
    run_finder(rt, record, offset)?;
    run_reader(rt, record, offset)?;
    number?;
    Ok(())
}

// Prints the four words and the two facts of a block.
fn print_words(rt: &impl Print, words: &Words) -> io::Result<()> {
    print!(rt; "  sorter {:016x} {:016x}", words.quotes, words.strings)?;
    print!(rt; " {:016x} {:016x}", words.opening, words.closing)?;
    println!(rt; " {} {}", u8::from(words.inside), u8::from(words.odd))
}

// Sorts the blocks of the record, one after the other, and hands on the facts of each. The sorter is given all that is left of the
// record, and not a chunk of it: that it looks no further than the first block is what the cases try.
pub fn run_blocks(rt: &impl Print, record: &[u8]) -> io::Result<()> {
    let mut inside = false;
    let mut odd = false;
    let mut rest = record;
    while !rest.is_empty() {
        let words = sort_block(rest, inside, odd);
        print_words(rt, &words)?;
        inside = words.inside;
        odd = words.odd;
        rest = rest.get(BLOCK..).unwrap_or_default();
    }
    Ok(())
}
