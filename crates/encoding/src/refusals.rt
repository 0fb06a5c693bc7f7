// Refusals: a ground of document 01, and a place.
ghost use Rattle.std.specs.Prelude.{◌≡◌};
ghost use Rattle.encoding.specs.Refusals.{number_of};

// Why a call refuses. Grounds 1 to 3 are of a query, 4 to 6 of a record; a list has too few pairs; no value begins at an offset; and of a path,
// a name has half of a surrogate pair, or the buffer has too few bytes.
#[derive(Clone, Copy, Debug, PartialEq, Eq)]
pub enum Ground {
    QueryTooLong,
    QueryWrong,
    TooManySteps,
    RecordTooLong,
    RecordWrong,
    TooDeep,
    LeftOver,
    NoValue,
    HalfName,
    NoRoom,
}

// A refusal: its ground, and the place that goes with it.
#[derive(Clone, Copy, Debug, PartialEq, Eq)]
pub struct Refusal {
    pub ground: Ground,
    pub place: usize,
}

impl Ground {
    // The number that the public calls answer for the ground.
    pub fn number(self) -> u32
        ensures { result ≡ number_of self }
    {
        match self {
            Ground::QueryTooLong => 1,
            Ground::QueryWrong => 2,
            Ground::TooManySteps => 3,
            Ground::RecordTooLong => 4,
            Ground::RecordWrong => 5,
            Ground::TooDeep => 6,
            Ground::LeftOver => 7,
            Ground::NoValue => 8,
            Ground::HalfName => 9,
            Ground::NoRoom => 10,
        }
    }
}
