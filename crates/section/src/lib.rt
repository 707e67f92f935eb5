// The rules of a section: check and the section read (document 01, 'Order').
#![tactic(auto)]

mod gather;
mod opening;
mod parents;
mod rules;
mod slot;
mod whole;
mod windows;

pub use rules::{answer_within, check};
