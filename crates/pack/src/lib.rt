// Packing a table of records into a stream (document 01, 'Records' and 'Order').
#![tactic(auto)]

mod judge;
mod lay;
mod put;
mod table;

pub use judge::{Index, Packed, RowRefusal};
pub use lay::pack;
pub use put::{lead, put_header, put_record};
pub use table::Table;
