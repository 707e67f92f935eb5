// The records of a filled paragraph: its header and its children (document 01, 'Filling a field').
#![tactic(auto)]

mod child;
mod fill;
mod head;

pub use child::{put_child, put_same, shapes_length};
pub use fill::{Fill, Piece, Spot, piece_of};
pub use head::put_paragraph;
