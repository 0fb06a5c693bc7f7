// The lines of the program `picklist`: the query and the record in its input, and the text for an answer.
#![tactic(auto)]

pub mod input;
pub mod output;

// The byte after a line.
const FEED: u8 = b'\n';

// The size of a buffer that holds every text.
pub const OUTPUT_SIZE: usize = 8192;
