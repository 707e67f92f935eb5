// The sheet: its length, and its bytes into a buffer (document 01, 'Filling a field').
#![tactic(auto)]

mod behind;
mod sheet;

pub use changing::Spot;
pub use sheet::{measure, write};
