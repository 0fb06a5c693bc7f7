// Reads numbers in decimal.
ghost use Rattle.std.specs.Prelude.{◌≤◌, length};
ghost use Rattle.cases.specs.Places.{Rest};

const BASE: usize = 10;

// The largest number to which another digit is added.
const MOST: usize = 99999999;

// A text that is no number, and the number of the digits at its start.
#[derive(Clone, Copy)]
pub struct NotANumber {
    pub value: usize,
}

// The number of the digits at the start of a text, and what stands behind them; nine digits or ten are read, and no more.
pub fn read_digits(text: &[u8]) -> (usize, &[u8])
    ensures { Rest 0 text.now result.1.now }
{
    let mut value = 0;
    for (i, &byte) in text.iter().enumerate() {
        match byte {
            b'0'..=b'9' if value <= MOST => value = value * BASE + usize::from(byte - b'0'),
            _ => return (value, &text[i..]),
        }
    }
    (value, &[])
}

// The number that a text is: its digits, and nothing else.
pub fn read_number(text: &[u8]) -> Result<usize, NotANumber> {
    match read_digits(text) {
        (value, []) if !text.is_empty() => Ok(value),
        (value, _) => Err(NotANumber { value }),
    }
}
