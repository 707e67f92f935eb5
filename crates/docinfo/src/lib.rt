// DocInfo: read with its counts (document 01, 'DocInfo').
#![tactic(auto)]

mod children;
mod counts;
mod read;
mod seek;
mod widths;

pub use children::count_children;
pub use counts::Group;
pub use read::check_docinfo;
pub use seek::only;
pub use widths::Width;
