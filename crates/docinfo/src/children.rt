// The children of a record.
ghost use Rattle.std.specs.Prelude.{◌≡◌, drop};
ghost use Rattle.records.specs.Parents.{children};
ghost use Rattle.records.specs.Reading.{read_from};
ghost use Rattle.docinfo.specs.Counts.{tally};

use records::{Offset, records_of};

// How many children at level n have the tag, among the records from `from` on.
pub fn count_children(s: &[u8], from: Offset, n: u32, tag: u32) -> usize
    ensures { result ≡ tally tag (children n (read_from n 0 (drop from.0 s.now)).recs) }
{
    let mut met: usize = 0;
    for r in records_of(s, from, n) {
        let Ok(r) = r else {
            return met;
        };
        if r.level < n {
            return met;
        }
        if r.level == n && r.tag == tag {
            met += 1;
        }
    }
    met
}
