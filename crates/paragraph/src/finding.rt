// What the rules of a paragraph find, each fault with what it names of the paragraph; places come later.
use records::{Fault, Offset};
use text::Position;

// The numbers in a paragraph header's body.
#[derive(Clone, Copy)]
pub struct Counts {
    pub count: u32,
    pub shapes: u32,
    pub marks: u32,
    pub lines: u32,
}

// What a fault names: the paragraph header; its nth child with a tag, the first of them 0; the unit at a position of its text; or the
// entry that begins at an offset of the body of the child with a tag.
#[derive(Clone, Copy)]
pub enum Which {
    Header,
    Child { tag: u32, nth: usize },
    Unit(Position),
    Entry { tag: u32, from: Offset },
}

// A rule that is broken: the fault, and what it names.
#[derive(Clone, Copy)]
pub struct Breach {
    pub fault: Fault,
    pub which: Which,
}

// What a rule finds: nothing against it, or a breach.
pub type Finding = Result<(), Breach>;
