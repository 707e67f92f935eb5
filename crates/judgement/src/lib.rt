// The rules of one paragraph in document 01's order, over the stream.
#![tactic(auto)]

mod judge;
mod rules;

pub use judge::{head_fault, place_in};
