// The query and the record in the bytes of the input.
ghost use Rattle.std.specs.Prelude.{◌≡◌, ◌==◌};
ghost use Rattle.std.specs.List.{position};
ghost use Rattle.lines.specs.Lines.{feed, query_in_of, record_in_of};

use crate::FEED;

// The place of the first line feed.
fn first_feed(input: &[u8]) -> Option<usize>
    ensures { result ≡ position (λ b. b == feed) input.now }
{
    input.iter().position(|b| *b == FEED)
}

// The query, which stands before the first line feed, and the record, which stands after it, and is nothing where there is none.
#[tactic(auto, using(crate::specs::SplitLaws::parted))]
pub fn parts(input: &[u8]) -> (&[u8], &[u8])
    ensures query_part { result.0.now ≡ query_in_of input.now }
    ensures record_part { result.1.now ≡ record_in_of input.now }
{
    match first_feed(input) {
        Some(end) => (&input[..end], &input[end + 1..]),
        None => (input, &[]),
    }
}
