// The rules on numbers and lengths: 10, 11 and 13.
ghost use Rattle.std.specs.Prelude.{Err, Ok, ◌≡◌, ◌*◌};
ghost use Rattle.paragraph.specs.Rules as rules;
ghost use Rattle.paragraph.specs.Places.{length_found, lengths_found};
ghost use Rattle.paragraph.specs.declared.finding.Which.TheVariants as W;
ghost use Rattle.records.specs.declared.fault.Fault.TheVariants as F;

use entries::{judge_marks, judge_shapes};
use paragraph::{Breach, Counts, Finding, Parts, Which};
use records::{Fault, Kind, Offset, Record};

// A rule is broken where the test holds: the fault, and what it names.
#[tactic(auto, unfolding(paragraph::specs::Rules::guard))]
pub fn broken_if(test: bool, fault: Fault, which: Which) -> Finding
    ensures { result ≡ rules.guard test (Err (rules.breach fault which)) (Ok tt) }
{
    if test {
        Err(Breach { fault, which })
    } else {
        Ok(())
    }
}

// A record is absent that is needed where its number is at least `least`.
fn lacks(least: u32, number: u32, f: Option<Record>) -> bool
    ensures { result ≡ rules.lacks least number (length_found f) }
{
    f.is_none() && least <= number
}

// 10.
#[tactic(auto, unfolding(paragraph::specs::Rules::absent))]
pub fn absent(c: Counts, p: Parts) -> bool
    ensures { result ≡ rules.absent c (lengths_found p) }
{
    lacks(2, c.count, p.text)
        || lacks(0, c.shapes, p.shapes)
        || lacks(1, c.lines, p.layout)
        || lacks(1, c.marks, p.marks)
}

// A record is present though its number is 0.
fn unwanted(number: u32, f: Option<Record>) -> bool
    ensures { result ≡ rules.unwanted number (length_found f) }
{
    f.is_some() && number == 0
}

// A record is present, and its number is 0 or asks for another number of bytes, so many for each.
fn misfits(number: u32, each: u32, f: Option<Record>) -> bool
    ensures { result ≡ rules.misfits number (each * number) (length_found f) }
{
    f.is_some_and(|r| number == 0 || r.len as u64 != each as u64 * number as u64)
}

// 11 of the first child with a tag.
fn wrong_if(test: bool, tag: u32) -> Finding
    ensures { result ≡ rules.guard test (rules.of_child tag F.LengthWrong) (Ok tt) }
{
    broken_if(test, Fault::LengthWrong, Which::Child { tag, nth: 0 })
}

// 11, in tag order.
#[tactic(auto, unfolding(paragraph::specs::Rules::length_fault, paragraph::specs::Rules::guard))]
pub fn length_fault(c: Counts, p: Parts) -> Finding
    ensures { result ≡ rules.length_fault c (lengths_found p) }
{
    wrong_if(misfits(c.count, 2, p.text), Kind::TEXT)?;
    wrong_if(misfits(c.shapes, 8, p.shapes), Kind::SHAPES)?;
    wrong_if(unwanted(c.lines, p.layout), Kind::LAYOUT)?;
    wrong_if(misfits(c.marks, 12, p.marks), Kind::MARKS)
}

// 13 names the entry that begins at an offset of the body of the child with a tag.
fn of_entry(tag: u32, from: Offset) -> Finding
    ensures { result ≡ Err (rules.breach F.EntriesWrong (W.Entry tag from)) }
{
    Err(Breach {
        fault: Fault::EntriesWrong,
        which: Which::Entry { tag, from },
    })
}

// 13, shapes and then marks.
#[tactic(auto, using(crate::proofs::RuleLaws::entry_laws), unfolding(paragraph::specs::Rules::entry_fault, paragraph::specs::Rules::guard_at))]
pub fn entry_fault(count: u32, shapes: &[u8], marks: &[u8]) -> Finding
    ensures { result ≡ rules.entry_fault count shapes.now marks.now }
{
    if let Some(i) = judge_shapes(shapes, count) {
        return of_entry(Kind::SHAPES, Offset(8 * i));
    }
    if let Some(i) = judge_marks(marks, count) {
        return of_entry(Kind::MARKS, Offset(12 * i));
    }
    Ok(())
}
