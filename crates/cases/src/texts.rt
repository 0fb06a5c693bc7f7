// Writes the bytes that texts stand for.
ghost use Rattle.std.specs.Prelude.{◌≤◌, length, IfSome};
ghost use Rattle.cases.specs.Places.{Onward, Rest};

use crate::numbers::read_digits;

// What a piece begins with that does not stand for itself.
const MARK: u8 = b'~';

// What ends the number of a byte.
const NUMBERED: u8 = b';';

// What stands before and behind a word that is written over and over.
const OPENS: u8 = b'(';

const CLOSES: u8 = b')';

// A text that is not in the notation, or that leaves no byte of the room.
#[derive(Drop)]
pub struct NotAText;

// The bytes that a text stands for, in a room of so many.
#[derive(Drop)]
pub struct Bytes<const ROOM: usize> {
    room: [u8; ROOM],
    size: usize,
    ghost fits: { size ≤ ROOM },
}

impl<const ROOM: usize> Bytes<ROOM> {
    // No bytes.
    pub fn new() -> Self {
        Bytes {
            room: [0; ROOM],
            size: 0,
        }
    }

    // The bytes.
    pub fn as_slice(&self) -> &[u8]
        ensures { length result.now ≤ ROOM }
    {
        &self.room[..self.size]
    }

    // Writes a word behind the bytes, as far as there is room.
    fn put(&mut self, word: &[u8])
        ensures { Onward ROOM self.old.size self.new.size }
    {
        let (_, rest) = self.room.split_at_mut(self.size);
        let size = word.len().min(rest.len());
        rest[..size].copy_from_slice(&word[..size]);
        self.size += size;
    }

    // Writes a word so many times behind the bytes, as far as there is room.
    fn put_times(&mut self, word: &[u8], times: usize)
        ensures { Onward ROOM self.old.size self.new.size }
    {
        for _ in 0..times {
            self.put(word);
        }
    }

    // Writes the first piece of a text behind the bytes: a byte that stands for itself, a byte by its number, or a word over and over.
    // Answers what stands behind the piece.
    fn put_piece<'a>(&mut self, text: &'a [u8]) -> Option<&'a [u8]>
        ensures behind { IfSome result (λ rest. Rest 1 text.now rest.now) }
        ensures onward { Onward ROOM self.old.size self.new.size }
    {
        let (&byte, behind) = text.split_first()?;
        if byte != MARK {
            self.put(&[byte]);
            return Some(behind);
        }
        let (number, behind) = read_digits(behind);
        match behind {
            [NUMBERED, rest @ ..] => {
                self.put(&[u8::try_from(number).ok()?]);
                Some(rest)
            }
            [OPENS, rest @ ..] => {
                let size = rest.iter().position(|&byte| byte == CLOSES)?;
                self.put_times(&rest[..size], number);
                Some(&rest[size + 1..])
            }
            _ => None,
        }
    }

    // Writes the bytes that a text stands for. Of a text that is not in the notation none are left, and of one that leaves no byte of
    // the room those that fill it.
    pub fn write(&mut self, text: &[u8]) -> Result<(), NotAText> {
        self.size = 0;
        let mut rest = text;
        while !rest.is_empty() {
            let Some(more) = self.put_piece(rest) else {
                self.size = 0;
                return Err(NotAText);
            };
            rest = more;
        }
        if self.size < ROOM {
            Ok(())
        } else {
            Err(NotAText)
        }
    }
}
