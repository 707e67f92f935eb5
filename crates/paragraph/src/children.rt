// Where a paragraph's children stand in the stream.
ghost use Rattle.std.specs.Prelude.{◌≡◌, drop};
ghost use Rattle.paragraph.specs.Stream.{records_in};
ghost use Rattle.paragraph.specs.Rules.{bytes_in};
ghost use Rattle.paragraph.specs.Places.{found_in, body_of, body_found};

use crate::stream::records_from;
use crate::view::{Side, stands_to};
use numbers::part;
use records::{Offset, Record};

// The nth child with a tag, among children at level n; the records behind the parent begin at `from`. Here and above the place moves on while stream
// and level stay, so no struct holds the three.
pub fn find(s: &[u8], from: Offset, n: u32, tag: u32, nth: usize) -> Option<Record>
    ensures { result ≡ found_in n tag nth from.0 (records_in (drop from.0 s.now)) }
{
    let mut left = nth;
    for r in records_from(s, from) {
        match stands_to(n, r.tag, r.level).owned_if(r.tag == tag) {
            Side::Beyond => {
                return None;
            }
            Side::Owned => {
                if left == 0 {
                    return Some(r);
                }
                left -= 1;
            }
            Side::Passed => {}
        }
    }
    None
}

// The four records that a paragraph has at most one of, and how many control headers it has.
#[derive(Clone, Copy)]
pub struct Parts {
    pub text: Option<Record>,
    pub shapes: Option<Record>,
    pub layout: Option<Record>,
    pub marks: Option<Record>,
    pub controls: usize,
}

// The bytes of a record's body, as far as they are there.
pub fn body<'a>(s: &'a [u8], r: Record) -> &'a [u8]
    ensures { result.now ≡ body_of s.now r }
{
    part(s, r.body.0, r.len)
}

// The bytes of a body; an absent record has none.
pub fn bytes<'a>(s: &'a [u8], f: Option<Record>) -> &'a [u8]
    ensures { result.now ≡ bytes_in (body_found s.now f) }
{
    f.map_or(&s[..0], |r| body(s, r))
}
