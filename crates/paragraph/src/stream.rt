// The records of a part of a stream, one after the other.
ghost use Rattle.std.specs.Prelude.{◌≡◌};
ghost use Rattle.paragraph.specs.Steps.{steps_over, left_in};

use records::{Offset, Record, record_at};

// What is left of a part of a stream that begins with a header, whatever level stands before it: where the next header stands. A fault ends it.
// Beside records::Records, which asks the level rule and gives the fault: its items and what it promises are others.
#[derive(Clone, Copy)]
pub struct RecordsFrom<'a> {
    pub stream: &'a [u8],
    pub at: Offset,
}

// The records of a stream from a place on.
pub fn records_from<'a>(stream: &'a [u8], at: Offset) -> RecordsFrom<'a>
    ensures { (result.stream.now ≡ stream.now) × (result.at ≡ at) }
{
    RecordsFrom { stream, at }
}

impl<'a> Iterator for RecordsFrom<'a> {
    type Item = Record;

    ghost next_gives = { steps_over };

    ghost remaining = { left_in };

    fn next(&mut self) -> Option<Record> {
        let r = record_at(self.stream, self.at, 1023)?.ok()?;
        self.at = r.next;
        Some(r)
    }
}
