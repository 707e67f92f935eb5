// The record at a place of a stream: the one step over the records.
ghost use Rattle.std.specs.Prelude.{◌≡◌};
ghost use Rattle.records.specs.Records.{lead_of};
ghost use Rattle.records.specs.Reading.{front_of, stands_at, long_at, body_at, ahead_of};

use crate::fault::{Fault, Offset, Refusal, refused};
use numbers::little;

// What a header says: where its body begins behind it, and how long that is.
#[derive(Clone, Copy)]
pub struct Header {
    pub tag: u32,
    pub level: u32,
    pub lead: usize,
    pub len: usize,
}

// The record at the front of s, whose level may be at most cap: 2, 5, 6, 2, 3, 4. A refusal's place is counted from there.
#[tactic(auto, unfolding(crate::specs::Reading::stands_at, crate::specs::Reading::word_at, crate::specs::Reading::guard, crate::specs::Records::lead_of))]
pub fn first(s: &[u8], cap: u32) -> Result<Header, Refusal>
    ensures { result ≡ front_of (stands_at cap s.now) }
{
    if s.len() < 4 {
        return refused(Fault::HeaderCut, Offset(s.len()));
    }
    let word = little::<4>(s);
    let tag = word % 1024;
    let level = word / 1024 % 1024;
    if tag < 16 {
        return refused(Fault::TagOutside, Offset(0));
    }
    if cap < level {
        return refused(Fault::LevelRule, Offset(0));
    }
    let size = word / 1048576;
    if size == 4095 {
        return long(s, tag, level);
    }
    body(s, tag, level, 4, size)
}

// A header of size 4095: its long length follows.
#[tactic(auto, unfolding(crate::specs::Reading::long_at, crate::specs::Reading::guard, crate::specs::Records::lead_of))]
fn long(s: &[u8], tag: u32, level: u32) -> Result<Header, Refusal>
    ensures { result ≡ front_of (long_at tag level s.now) }
{
    if s.len() < 8 {
        return refused(Fault::HeaderCut, Offset(s.len()));
    }
    let len = little::<4>(&s[4..]);
    if len < 4095 {
        return refused(Fault::LongLengthTooSmall, Offset(4));
    }
    body(s, tag, level, 8, len)
}

// The record whose body is behind the first `lead` bytes.
#[tactic(auto, unfolding(crate::specs::Reading::body_at, crate::specs::Reading::guard, crate::specs::Records::lead_of))]
fn body(s: &[u8], tag: u32, level: u32, lead: usize, len: u32) -> Result<Header, Refusal>
    requires { lead ≡ lead_of len }
    ensures { result ≡ front_of (body_at tag level s.now lead len) }
{
    let len = len as usize;
    if s.len() < lead + len {
        return refused(Fault::BodyPastEnd, Offset(0));
    }
    Ok(Header {
        tag,
        level,
        lead,
        len,
    })
}

// A record of a stream: where its header stands and what that says, where its body begins, and where the next header stands.
#[derive(Clone, Copy)]
pub struct Record {
    pub at: Offset,
    pub tag: u32,
    pub level: u32,
    pub body: Offset,
    pub len: usize,
    pub next: Offset,
}

// What stands at a place of the stream, where the level may be at most cap: a record, or a refusal at its place in the stream; or the end.
#[tactic(auto, using(numbers::proofs::LittleLaws::part_rest), unfolding(crate::specs::Reading::ahead_of, crate::specs::Records::size))]
pub fn record_at(s: &[u8], at: Offset, cap: u32) -> Option<Result<Record, Refusal>>
    ensures { result ≡ ahead_of cap s.now at.0 }
{
    if s.len() <= at.0 {
        return None;
    }
    Some(match first(&s[at.0..], cap) {
        Ok(h) => {
            let body = at.0 + h.lead;
            Ok(Record {
                at,
                tag: h.tag,
                level: h.level,
                body: Offset(body),
                len: h.len,
                next: Offset(body + h.len),
            })
        }
        Err(r) => Err(Refusal {
            fault: r.fault,
            place: Offset(at.0 + r.place.0),
        }),
    })
}
