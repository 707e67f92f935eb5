// The first pass over a section: the headers are read (1 to 6), and rule 9 is judged in its first window of levels. A stray is kept until the reading
// has ended well. A section of real depth is not passed again for rule 9.
ghost use Rattle.section.specs.Sweeps.{Opens};

use crate::parents::{LEVELS, strays};
use crate::whole::Whole;
use records::{Fault, LIMIT, Offset, Refusal, records_of, refused};

// What the first pass finds, where the reading ends well: how many records there are, the earliest stray of the first window, and the stream
// with its deepest level.
#[derive(Clone, Copy)]
pub struct Opening<'a> {
    pub n: usize,
    pub stray: Option<Offset>,
    pub whole: Whole<'a>,
}

// The same, or a refusal of the reading.
pub type Opened<'a> = Result<Opening<'a>, Refusal>;

// Every header in one pass; a refusal of the reading comes before any stray.
pub fn first_pass<'a>(s: &'a [u8]) -> Opened<'a>
    ensures { Opens s.now result }
{
    if LIMIT < s.len() {
        return refused(Fault::StreamTooLong, Offset(0));
    }
    let mut table = [16u8; LEVELS as usize];
    let mut n = 0;
    let mut stray = None;
    let mut deepest = 0u32;
    for item in records_of(s, Offset(0), 0) {
        let r = item?;
        if strays(&mut table, 0, r.tag, r.level) {
            stray = stray.or(Some(r.at));
        }
        deepest = deepest.max(r.level);
        n += 1;
    }
    Ok(Opening {
        n,
        stray,
        whole: Whole { stream: s, deepest },
    })
}
