// The calls over a field: its text, and its fill (document 01, 'Filling a field').
#![tactic(auto)]

mod outcome;
mod sheets;
mod value;

pub use outcome::field_text;
pub use sheets::fill;
