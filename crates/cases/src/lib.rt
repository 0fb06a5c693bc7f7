// Runs the lines of files of cases, and reads the numbers and texts that stand on them (docs/SAMPLES.md has the notation).
#![tactic(auto)]

mod lent;
mod lines;
mod numbers;
mod texts;

pub use lent::changed;
pub use lines::{Stop, run_lines};
pub use numbers::{NotANumber, read_number};
pub use texts::{Bytes, NotAText};
