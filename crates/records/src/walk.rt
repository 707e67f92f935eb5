// The records of a stream, one after the other, and the fault that ends them.
ghost use Rattle.std.specs.Prelude.{◌≡◌};
ghost use Rattle.records.specs.Steps.{steps_over, left_in};

use crate::fault::{Offset, Refusal};
use crate::header::{Record, record_at};

// What is left of a stream: where the next header stands, and the most that its level may be. A fault is given once, and ends it.
#[derive(Clone, Copy)]
pub struct Records<'a> {
    pub stream: &'a [u8],
    pub at: Offset,
    pub cap: u32,
}

// The records of a stream from a place on, the first of them of a level of at most cap.
pub fn records_of<'a>(stream: &'a [u8], at: Offset, cap: u32) -> Records<'a>
    ensures { (result.stream.now ≡ stream.now) × (result.at ≡ at) × (result.cap ≡ cap) }
{
    Records { stream, at, cap }
}

impl<'a> Iterator for Records<'a> {
    type Item = Result<Record, Refusal>;

    ghost next_gives = { steps_over };

    ghost remaining = { left_in };

    fn next(&mut self) -> Option<Result<Record, Refusal>> {
        let ahead = record_at(self.stream, self.at, self.cap)?;
        match ahead {
            Ok(r) => {
                self.at = r.next;
                self.cap = r.level + 1;
            }
            Err(_) => {
                self.at = Offset(self.stream.len());
            }
        }
        Some(ahead)
    }
}
