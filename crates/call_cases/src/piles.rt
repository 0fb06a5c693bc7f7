// Asks how large the pile gets for a query, and prints what is told.
use crate::lists::QUERY_ROOM;
use cases::{Bytes, Stop};
use woodcrock::bound_pile;

// Prints the four answers for the query that a text is.
pub fn run_frames(rt: &impl Print, text: &[u8]) -> Result<(), Stop> {
    let mut query = Bytes::<QUERY_ROOM>::new();
    let written = query.write(text);
    let bound = bound_pile(query.as_slice());
    let bounded = u8::from(bound.bounded);
    println!(rt;
        "  frames {} {} {bounded} {}",
        bound.ground, bound.place, bound.frames
    )?;
    Ok(written?)
}
