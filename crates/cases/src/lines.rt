// Runs the lines of a file.
ghost use Rattle.std.specs.Prelude.{◌≡◌};
ghost use Rattle.cases.specs.Places.{Rest};
ghost use Rattle.cases.specs.declared.lines.Stop.TheVariants.{BadLine, Failed};

use crate::{NotANumber, NotAText};
use std::io;

const SPACE: u8 = b' ';

const FEED: u8 = b'\n';

// What a line begins with that says nothing.
const NOTE: u8 = b'#';

// Why a run ends before its last line.
#[derive(Drop)]
pub enum Stop {
    // A write failed.
    Failed(io::Error),
    // A line could not be read.
    BadLine,
}

impl From<io::Error> for Stop {
    ghost from_gives = { λ error stop. stop ≡ Failed error };

    fn from(error: io::Error) -> Stop {
        Stop::Failed(error)
    }
}

impl From<NotANumber> for Stop {
    ghost from_gives = { λ _ stop. stop ≡ BadLine };

    fn from(_: NotANumber) -> Stop {
        Stop::BadLine
    }
}

impl From<NotAText> for Stop {
    ghost from_gives = { λ _ stop. stop ≡ BadLine };

    fn from(_: NotAText) -> Stop {
        Stop::BadLine
    }
}

// What stands behind the first word of a line: behind its first space, and nothing on a line that has none.
fn behind_word(line: &[u8]) -> &[u8]
    ensures { Rest 0 line.now result.now }
{
    match line.iter().position(|&byte| byte == SPACE) {
        Some(space) => &line[space + 1..],
        None => &[],
    }
}

// Prints the lines of a file as they stand, and runs each that is not empty and no note, by its first byte and what stands behind its
// first word: `run` answers whether the line is a case. Answers how many are.
fn count_cases<F: FnMut(u8, &[u8]) -> Result<bool, Stop>>(
    rt: &impl Print,
    file: &[u8],
    mut run: F,
) -> Result<u32, Stop>
    requires { F.IsAlwaysCallable run }
{
    let mut cases: u32 = 0;
    for line in file.split_inclusive(|&byte| byte == FEED) {
        let line = line.strip_suffix(&[FEED]).unwrap_or(line);
        rt.write_all(line)?;
        rt.write_all(b"\n")?;
        match line {
            [] | [NOTE, ..] => {}
            [key, ..] => {
                if run(*key, behind_word(line))? {
                    cases = cases.wrapping_add(1);
                }
            }
        }
    }
    Ok(cases)
}

// Runs the lines of a file up to the first that cannot be read, and prints how many of them are cases, or that the last could not be
// read.
pub fn run_lines<F: FnMut(u8, &[u8]) -> Result<bool, Stop>>(
    rt: &impl Print,
    file: &[u8],
    run: F,
) -> io::Result<()>
    requires { F.IsAlwaysCallable run }
{
    match count_cases(rt, file, run) {
        Ok(cases) => println!(rt; "{cases} cases"),
        Err(Stop::BadLine) => println!(rt; "bad line"),
        Err(Stop::Failed(error)) => Err(error),
    }
}
