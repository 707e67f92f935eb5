// What check and the section read answer. The first pass reads the headers and judges rule 9 down to level 199; rule 9 is passed again for every 200
// levels more that the records reach, and the paragraphs for every 16. Each text is walked once, and once more where it has extended controls. Only
// the control header of a field (15) is looked for below its paragraph's header, so that nested paragraphs before it are passed once more.
ghost use Rattle.std.specs.Prelude.{◌≡◌, []};
ghost use Rattle.records.specs.Reading.{read_all};
ghost use Rattle.records.specs.Table.{settled};
ghost use Rattle.paragraph.specs.Stream.{records_in};
ghost use Rattle.section.specs.Parents.{stray_from};
ghost use Rattle.section.specs.Sweeps.{stray_at};
ghost use Rattle.section.specs.Section.{paragraphs_fault, stray_or, section_answer, check_answer};

use crate::gather::first_at_fault;
use crate::opening::{Opening, first_pass};
use crate::parents::find_stray;
use crate::slot::Blamed;
use crate::whole::Whole;
use judgement::place_in;
use records::{Answer, Fault, Offset, refused, scan};

// The first paragraph at fault; n is the answer where none is.
fn judge_paragraphs(whole: Whole, n: usize) -> Answer
    ensures { result ≡ settled n (paragraphs_fault 0 (records_in whole.entry.stream.now)) }
{
    match first_at_fault(whole) {
        Some(Blamed { at, breach }) => refused(
            breach.fault,
            place_in(whole.stream, at, breach.which),
        ),
        None => Ok(n),
    }
}

// 9 over all records, by the earliest stray of its first window; then each paragraph.
fn judge_section(whole: Whole, n: usize, stray: Option<Offset>) -> Answer
    requires { stray ≡ stray_at 0 200 whole.stream.now }
    ensures { result ≡ settled n (stray_or (stray_from 0 [] (read_all whole.entry.stream.now).recs) (paragraphs_fault 0 (records_in whole.entry.stream.now))) }
{
    match find_stray(whole, stray) {
        Some(p) => refused(Fault::Misplaced, p),
        None => judge_paragraphs(whole, n),
    }
}

// What the section read answers where the shortest list has `room` entries.
pub fn answer_within(s: &[u8], room: usize) -> Answer
    ensures { result ≡ section_answer s.now room }
{
    let Opening { n, stray, whole } = first_pass(s)?;
    if room < n {
        return scan(s, room);
    }
    judge_section(whole, n, stray)
}

// The section read without lists.
#[tactic(auto, unfolding(crate::specs::Section::check_answer))]
pub fn check(s: &[u8]) -> Answer
    ensures { result ≡ check_answer s.now }
{
    answer_within(s, s.len())
}
