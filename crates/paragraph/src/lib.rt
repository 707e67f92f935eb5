// One paragraph: its view and its rules (document 01, 'Paragraphs').
#![tactic(auto)]

mod children;
mod fields;
mod finding;
mod stream;
mod view;

pub use children::{Parts, body, bytes, find};
pub use fields::{Owned, field_short, owned_header, unit_place};
pub use finding::{Breach, Counts, Finding, Which};
pub use stream::{RecordsFrom, records_from};
pub use view::{Side, stands_to};
