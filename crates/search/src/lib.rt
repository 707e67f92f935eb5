// The field search: paragraphs in stream order, and in each its text from the start (document 01, 'Filling a field').
#![tactic(auto)]

mod passing;
mod seek;
mod sound;

pub use passing::{Look, Paragraph};
pub use seek::{Closing, Field, Hit, Met, Passed, SectionSearch, Seen, search_section};
