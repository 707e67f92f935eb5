// What the DocInfo read answers.
ghost use Rattle.std.specs.Prelude.{◌≡◌, ◌≤◌};
ghost use Rattle.records.specs.Reading.{read_all};
ghost use Rattle.records.specs.Table.{settled};
ghost use Rattle.docinfo.specs.Only.{only, required_of, located_at, InStream};
ghost use Rattle.docinfo.specs.DocInfo.{counts_fault, bodies_fault, docinfo_fault, docinfo_answer};

use crate::counts::judge_counts;
use crate::seek::only;
use crate::widths::{Width, form_of};
use numbers::part;
use records::{Answer, Fault, Offset, Record, Refusal, refused};

// 18 for a count of record 17, each of N bytes; else n records are accepted.
#[tactic(auto, using(crate::proofs::AnswerLaws::count_inside))]
fn judge_mappings<const N: usize>(s: &[u8], n: usize, mappings: Record) -> Answer
    requires { (N ≤ 4) × (InStream s.now mappings) }
    ensures { result ≡ settled n (counts_fault N s.now mappings) }
{
    match judge_counts::<N>(s, part(s, mappings.body.0, mappings.len), mappings.next) {
        None => Ok(n),
        Some(i) => refused(Fault::CountUnmatched, Offset(mappings.body.0 + N * i)),
    }
}

// 17 for record 16, 17 for record 17, 18; else n records are accepted.
#[tactic(auto, using(crate::proofs::AnswerLaws::bodies_16))]
fn judge_bodies(s: &[u8], n: usize, properties: Record, mappings: Record) -> Answer
    requires { (InStream s.now properties) × (InStream s.now mappings) × (mappings.level ≡ 0) }
    ensures { result ≡ settled n (bodies_fault (located_at s.now properties) (located_at s.now mappings)) }
{
    if properties.len < 30 {
        return refused(Fault::DocInfoLength, properties.at);
    }
    match form_of(mappings.len) {
        Some(Width::Bits16) => judge_mappings::<2>(s, n, mappings),
        Some(Width::Bits32) => judge_mappings::<4>(s, n, mappings),
        None => refused(Fault::DocInfoLength, mappings.at),
    }
}

// The only record with a tag: 16.
fn required(s: &[u8], tag: u32) -> Result<Record, Refusal>
    ensures { result ≡ required_of (only tag (read_all s.now).recs) }
{
    only(s, tag).map_err(|place| Refusal {
        fault: Fault::DocInfoRecord,
        place,
    })
}

// 16 for record 16, 16 for record 17, and then their bodies; else n records are accepted.
fn judge(s: &[u8], n: usize) -> Answer
    ensures { result ≡ settled n (docinfo_fault (read_all s.now).recs) }
{
    let properties = required(s, 16)?;
    let mappings = required(s, 17)?;
    judge_bodies(s, n, properties, mappings)
}

// What the DocInfo read answers where the shortest list has `room` entries.
#[tactic(auto, unfolding(crate::specs::DocInfo::docinfo_answer))]
pub fn check_docinfo(s: &[u8], room: usize) -> Answer
    ensures { result ≡ docinfo_answer s.now room }
{
    let n = records::scan(s, room)?;
    judge(s, n)
}
