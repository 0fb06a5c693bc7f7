// Parts of a text, each written into a buffer at a place. Each function answers the place after what it wrote, and leaves every other byte
// as it was.
#![tactic(auto)]

ghost use Rattle.std.specs.Prelude.{◌≡◌, ◌∷◌, [], ◌++◌, length};
ghost use Rattle.text.specs.Decimal.{decimal};
ghost use Rattle.text.specs.Put.{Room, Written};

const ZERO: u8 = b'0';

const BASE: u32 = 10;

// Writes one byte.
#[tactic(auto, using(crate::specs::PutLaws::put_one))]
pub fn write_byte(out: &mut [u8], at: usize, byte: u8) -> usize
    requires { Room (byte ∷ []) at out.old }
    ensures { Written (byte ∷ []) at out.old out.new result }
{
    out[at] = byte;
    at + 1
}

// Writes the bytes of a word.
#[tactic(auto, unfolding(crate::specs::Put::put))]
pub fn write_word(out: &mut [u8], at: usize, word: &[u8]) -> usize
    requires { Room word.now at out.old }
    ensures { Written word.now at out.old out.new result }
{
    let end = at + word.len();
    out[at..end].copy_from_slice(word);
    end
}

// How many digits a number has in decimal.
#[tactic(auto, using(crate::specs::DecimalLaws::decimal_count))]
pub fn digit_count(number: u32) -> usize
    ensures { result ≡ length (decimal number) }
{
    number.max(1).ilog10() as usize + 1
}

// Writes a number in decimal, the last digit first. By hand: a formatter over the buffer would bring an error that cannot come.
fn write_decimal(out: &mut [u8], at: usize, number: u32) -> usize
    requires { Room (decimal number) at out.old }
    ensures { Written (decimal number) at out.old out.new result }
{
    let end = at + digit_count(number);
    let mut rest = number;
    for i in (at..end).rev() {
        out[i] = ZERO + (rest % BASE) as u8;
        rest /= BASE;
    }
    end
}

// Writes a number in decimal and the byte after it.
pub fn write_field(out: &mut [u8], at: usize, number: u32, after: u8) -> usize
    requires { Room (decimal number ++ (after ∷ [])) at out.old }
    ensures { Written (decimal number ++ (after ∷ [])) at out.old out.new result }
{
    let end = write_decimal(out, at, number);
    write_byte(out, end, after)
}
