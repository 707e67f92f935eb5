// The rules of one paragraph, in document 01's order.
ghost use Rattle.std.specs.Prelude.{◌≡◌, ◌≤◌, length, drop, None};
ghost use Rattle.records.specs.Reading.{offset};
ghost use Rattle.text.specs.Units.{units};
ghost use Rattle.text.specs.Walk.{tokens, fault_at};
ghost use Rattle.paragraph.specs.View.{kids, controls};
ghost use Rattle.paragraph.specs.Stream.{records_in};
ghost use Rattle.paragraph.specs.Rules as rules;
ghost use Rattle.paragraph.specs.Places.{parts_in, text_judged, text_told, body_place, child_in, entry_place, place_of};

use crate::rules::{absent, broken_if, entry_fault, length_fault};
use numbers::little;
use paragraph::{
    Breach, Counts, Finding, Owned, Parts, Which, body, bytes, field_short, find, owned_header,
    records_from, unit_place,
};
use reader::next_control;
use records::{Fault, Kind, Offset, Record};
use text::{Position, Step};

// The numbers in a paragraph header's body, which is long enough.
#[tactic(auto, using(numbers::proofs::LittleLaws::part_rest), unfolding(paragraph::specs::Rules::counts_of))]
fn counts(head: &[u8]) -> Counts
    requires { 18 ≤ length head.now }
    ensures { result ≡ rules.counts_of head.now }
{
    Counts {
        count: little::<4>(head) % 2147483648,
        shapes: little::<2>(&head[12..]),
        marks: little::<2>(&head[14..]),
        lines: little::<2>(&head[16..]),
    }
}

// 15: the text's extended controls and the control headers side by side. The text is sound. Of the headers behind `at` the first
// `skipped` belong to controls that are no fields.
fn field_fault(s: &[u8], from: Offset, n: u32, text: &[u8]) -> Finding
    requires { fault_at (units text.now) 0 ≡ None }
    ensures { result ≡ rules.field_fault 0 (rules.codes_in (tokens (units text.now))) (controls (kids n (records_in (drop from.0 s.now)))) }
{
    let mut walk = Position(0);
    let mut at = from;
    let mut nth: usize = 0;
    let mut skipped: usize = 0;
    // No `for`: the walk is a cursor by value (document 01's form).
    while let Step::Stands { what, next, .. } = next_control(text, walk) {
        walk = next.at;
        match owned_header(s, at, n, skipped, what) {
            Owned::Nobody => {}
            Owned::Lacking => {
                return Ok(());
            }
            Owned::Other => {
                skipped += 1;
                nth += 1;
            }
            Owned::Header(r) => {
                broken_if(
                    field_short(body(s, r)),
                    Fault::FieldHeaderShort,
                    Which::Child {
                        tag: Kind::CONTROL_HEADER,
                        nth,
                    },
                )?;
                at = r.next;
                skipped = 0;
                nth += 1;
            }
        }
    }
    Ok(())
}

// 12, where there is a text: how many extended controls it has.
fn text_fault(f: Option<Record>, text: &[u8]) -> Result<usize, Breach>
    ensures { result ≡ text_told (text_judged f text.now) }
{
    match f {
        Some(_) => reader::judge(text).map_err(|at| Breach {
            fault: Fault::TextRule,
            which: Which::Unit(at),
        }),
        None => Ok(0),
    }
}

// 8 to 15, by the header's body and the parts that the records from `from` on have of it, however they were found.
pub fn head_fault(s: &[u8], from: Offset, n: u32, head: &[u8], p: Parts) -> Finding
    requires { p ≡ parts_in n from.0 (records_in (drop from.0 s.now)) }
    ensures { result ≡ rules.head_fault head.now (kids n (records_in (drop from.0 s.now))) }
{
    broken_if(head.len() < 22, Fault::ParagraphHeaderShort, Which::Header)?;
    let c = counts(head);
    broken_if(absent(c, p), Fault::RecordAbsent, Which::Header)?;
    length_fault(c, p)?;
    let text = bytes(s, p.text);
    let extended = text_fault(p.text, text)?;
    entry_fault(c.count, bytes(s, p.shapes), bytes(s, p.marks))?;
    broken_if(
        extended != p.controls,
        Fault::ControlsUnmatched,
        Which::Header,
    )?;
    if extended == 0 {
        Ok(())
    } else {
        field_fault(s, from, n, text)
    }
}

// The nth child with a tag of the paragraph whose header stands at a place.
fn child_of(s: &[u8], at: Offset, tag: u32, nth: usize) -> Option<Record>
    ensures { result ≡ child_in at.0 (records_in (drop at.0 s.now)) tag nth }
{
    let r = records_from(s, at).next()?;
    find(s, r.next, r.level + 1, tag, nth)
}

// Where the body of the first child with a tag begins, or the paragraph's header stands where it has none.
fn body_place(s: &[u8], at: Offset, tag: u32) -> Offset
    ensures { result ≡ offset (body_place at.0 (child_in at.0 (records_in (drop at.0 s.now)) tag 0)) }
{
    child_of(s, at, tag, 0).map_or(at, |r| r.body)
}

// The place of the entry that begins at an offset of a body; a sum that no number holds is given as the largest.
fn entry_place(body: Offset, from: Offset) -> Offset
    ensures { result ≡ entry_place body from }
{
    Offset(body.0.saturating_add(from.0))
}

// The place of what a fault names, in the paragraph whose header stands at a place.
pub fn place_in(s: &[u8], at: Offset, which: Which) -> Offset
    ensures { result ≡ offset (place_of at.0 (records_in (drop at.0 s.now)) which) }
{
    match which {
        Which::Header => at,
        Which::Child { tag, nth } => child_of(s, at, tag, nth).map_or(at, |r| r.at),
        Which::Unit(position) => unit_place(body_place(s, at, Kind::TEXT), position),
        Which::Entry { tag, from } => entry_place(body_place(s, at, tag), from),
    }
}
