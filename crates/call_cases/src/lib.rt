// Runs a file of cases of the public calls. Each line of it is printed as it stands, and below a line that makes calls what they
// answer; at the end stands the number of such lines. docs/SAMPLES.md has the lines.
#![tactic(auto)]

mod calls;
mod lists;
mod path_cases;
mod piles;

ghost use Rattle.std.specs.Prelude.{◌≡◌, ◌≤◌};
ghost use Rattle.cases.specs.Stops.{OnFailed};

use calls::{run_blocks, run_value};
use cases::{Bytes, Stop, read_number, run_lines};
use lists::{MAX_NUMBERS, run_query};
use path_cases::run_path;
use piles::run_frames;
use std::io;

// The most bytes of a record, and one more.
const RECORD_ROOM: usize = 4096;

// What the first byte of a line says of it.
const LIST: u8 = b'l';

const RECORD: u8 = b'r';

const QUERY: u8 = b'q';

const VALUE: u8 = b'v';

const PATH: u8 = b'p';

const BLOCKS: u8 = b'b';

const FRAMES: u8 = b'f';

// What the lines so far have set: the record, and the numbers of a list, which are also the bytes of a buffer.
#[derive(Drop)]
struct Setting {
    record: Bytes<RECORD_ROOM>,
    numbers: usize,
    ghost listed: { numbers ≤ 64 },
}

impl Setting {
    // Sets the numbers of a list.
    fn set_list(&mut self, text: &[u8]) -> Result<(), Stop>
        ensures { self.new.record ≡ self.old.record }
    {
        let numbers = read_number(text)?;
        if numbers > MAX_NUMBERS {
            return Err(Stop::BadLine);
        }
        self.numbers = numbers;
        Ok(())
    }

    // Makes the calls of a line.
    fn run_calls(&self, rt: &impl Print, key: u8, text: &[u8]) -> Result<(), Stop> {
        let record = self.record.as_slice();
        match key {
            QUERY => run_query(rt, text, record, self.numbers),
            VALUE => run_value(rt, text, record),
            PATH => run_path(rt, text, record, self.numbers),
            FRAMES => run_frames(rt, text),
            BLOCKS => Ok(run_blocks(rt, record)?),
            _ => Err(Stop::BadLine),
        }
    }

    // Does what a line says, and answers whether it makes calls.
    fn run_line(&mut self, rt: &impl Print, key: u8, text: &[u8]) -> Result<bool, Stop>
        ensures { OnFailed result (self.new.record ≡ self.old.record) }
    {
        match key {
            LIST => self.set_list(text)?,
            RECORD => self.record.write(text)?,
            _ => {
                self.run_calls(rt, key, text)?;
                return Ok(true);
            }
        }
        Ok(false)
    }
}

// Runs a file.
pub fn run_file(rt: &impl Print, file: &[u8]) -> io::Result<()> {
    let mut setting = Setting {
        record: Bytes::new(),
        numbers: 0,
    };
    run_lines(rt, file, |key, text| setting.run_line(rt, key, text))
}
