// What stands at a place, as the search passes it.
ghost use Rattle.std.specs.Prelude.{◌≡◌, drop};
ghost use Rattle.numbers.specs.Little.{little};
ghost use Rattle.records.specs.Kinds as kind;
ghost use Rattle.paragraph.specs.Stream.{records_in};
ghost use Rattle.paragraph.specs.Places.{found_in};
ghost use Rattle.search.specs.Steps.{span_of, bare_in, look_of};

use filling::Span;
use numbers::little_at;
use paragraph::{Side, body, find, records_from, stands_to};
use records::{Kind, Offset};

// A paragraph: its number, the place of its header, the level of its children, where they begin, the bytes of its text and its number
// of marks.
#[derive(Clone, Copy)]
pub struct Paragraph {
    pub number: usize,
    pub header: Offset,
    pub level: u32,
    pub behind: Offset,
    pub text: Span,
    pub marks: u32,
}

// What stands at a place: no record; records in which no field can be, how many of them paragraph headers, and where the next stands;
// or another paragraph header. Three ways on, so it is no Option.
#[derive(Clone, Copy)]
pub enum Look {
    Nothing,
    Passed { paragraphs: usize, next: Offset },
    Paragraph(Paragraph),
}

// The text among the children at level n of a paragraph, behind whose header the records begin at `behind`.
fn text_of(s: &[u8], behind: Offset, n: u32) -> Span
    ensures { result ≡ span_of (found_in n kind.text 0 behind.0 (records_in (drop behind.0 s.now))) }
{
    find(s, behind, n, Kind::TEXT, 0).map_or(
        Span {
            place: Offset(0),
            len: 0,
        },
        |r| Span {
            place: r.body,
            len: r.len,
        },
    )
}

// The number of marks in a paragraph header's body.
fn marks_in(head: &[u8]) -> u32
    ensures { result ≡ little 2 (drop 14 head.now) }
{
    little_at::<2>(head, 14)
}

// Where the children of a paragraph end, if they are 67 to 70 and all that stands below it: most paragraphs have no control header, so
// that no field is in their text.
fn bare_until(s: &[u8], from: Offset, n: u32) -> Option<Offset>
    ensures { result ≡ bare_in n from.0 (records_in (drop from.0 s.now)) }
{
    let mut end = from;
    for r in records_from(s, from) {
        match stands_to(n, r.tag, r.level).owned_if(r.tag != Kind::CONTROL_HEADER) {
            Side::Beyond => break,
            Side::Owned => end = r.next,
            Side::Passed => return None,
        }
    }
    Some(end)
}

// What stands at a place.
pub fn look_at(s: &[u8], number: usize, at: Offset) -> Look
    ensures { result ≡ look_of number at.0 (records_in (drop at.0 s.now)) }
{
    let Some(r) = records_from(s, at).next() else {
        return Look::Nothing;
    };
    if r.tag != Kind::PARAGRAPH_HEADER {
        return Look::Passed {
            paragraphs: 0,
            next: r.next,
        };
    }
    let level = r.level + 1;
    if let Some(next) = bare_until(s, r.next, level) {
        return Look::Passed {
            paragraphs: 1,
            next,
        };
    }
    Look::Paragraph(Paragraph {
        number,
        header: at,
        level,
        behind: r.next,
        text: text_of(s, r.next, level),
        marks: marks_in(body(s, r)),
    })
}
