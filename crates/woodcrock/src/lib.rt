// Woodcrock: the nodes of a JSON record that a JSONPath query picks out, how large the pile gets for a query, the end of a value, a
// value's bytes, the path of a node, and words of bits.
#![tactic(auto)]

mod jumping_lister;
mod listing;
mod plain_lister;

pub use blocks::{Words, sort_block};
pub use bound::{Bound, bound_pile};
pub use find::{Found, find_value, read_value};
pub use jumping_lister::list_jumping;
pub use lister::Answer;
pub use path::{PathWritten, write_path};
pub use plain_lister::list_plain;
