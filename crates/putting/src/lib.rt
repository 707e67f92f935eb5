// Bytes put one behind the other into a buffer, and the character shapes after a fill (document 01, 'Filling a field').
#![tactic(auto)]

mod narrow;
mod put;
mod shapes;

pub use narrow::NarrowBytes;
pub use put::Sheet;
pub use shapes::{Change, put_entries};
