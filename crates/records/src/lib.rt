// Reading the records of an unpacked stream (document 01, 'Records').
#![tactic(auto)]

mod fault;
mod header;
mod kind;
mod parents;
mod table;
mod walk;

pub use fault::{Answer, Fault, Offset, Reason, Refusal, bits, host, refused};
pub use header::{Record, record_at};
pub use kind::Kind;
pub use parents::right_parents;
pub use table::{Columns, LIMIT, enter, room, scan};
pub use walk::{Records, records_of};
