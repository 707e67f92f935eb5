// Looking for the only record with a tag.
ghost use Rattle.std.specs.Prelude.{◌≡◌, drop};
ghost use Rattle.records.specs.Reading.{read_from, read_all};
ghost use Rattle.docinfo.specs.Only.{tagged, sought_of, sole_of, only};

use records::{Offset, Record, records_of};

// The first record with a tag from `from` on, where the next level may be at most `most`.
fn seek(s: &[u8], from: Offset, most: u32, tag: u32) -> Option<Record>
    ensures { result ≡ sought_of (tagged tag from.0 (read_from most 0 (drop from.0 s.now)).recs) }
{
    for r in records_of(s, from, most) {
        let Ok(r) = r else {
            return None;
        };
        if r.tag == tag {
            return Some(r);
        }
    }
    None
}

// The only record with a tag, at level 0: else 0 where it is absent, or the first that is not at level 0 or is the second.
pub fn only(s: &[u8], tag: u32) -> Result<Record, Offset>
    ensures { result ≡ sole_of (only tag (read_all s.now).recs) }
{
    let r = seek(s, Offset(0), 0, tag).ok_or(Offset(0))?;
    if r.level != 0 {
        return Err(r.at);
    }
    match seek(s, r.next, 1, tag) {
        Some(second) => Err(second.at),
        None => Ok(r),
    }
}
