// The search for the fields with an id.
ghost use Rattle.std.specs.Prelude.{◌≡◌, ◌≤◌, length, drop};
ghost use Rattle.text.specs.Units.{units};
ghost use Rattle.text.specs.Walk.{tokens_at};
ghost use Rattle.paragraph.specs.Stream.{records_in};
ghost use Rattle.paragraph.specs.Places.{owned_by};
ghost use Rattle.paragraph.specs.Rules.{owner_of};
ghost use Rattle.paragraph.specs.declared.fields.Owned.TheVariants as K;
ghost use Rattle.filling.specs.Fields.{id_in, next};
ghost use Rattle.filling.specs.Search.{hits};
ghost use Rattle.search.specs.Searching.{met_with, section_search};
ghost use Rattle.search.specs.Steps.{closing_of, closing_by, seen_of, hit_from, met_by};
ghost use Rattle.search.specs.Steps as Steps;
ghost use Rattle.search.specs.Accepted.{Keep};

use crate::passing::{Look, Paragraph, look_at};
use crate::sound::SoundFrom;
use numbers::{little_at, part, wide};
use paragraph::{Owned, body, owned_header};
use reader::next_control;
use records::{Offset, Record, Refusal};
use section::check;
use text::{Position, Standing, Step};

// A field: how many extended controls stand before it, the position behind its control, that of the next unit below 32, and whether
// that is code 4.
#[derive(Clone, Copy)]
pub struct Field {
    pub ordinal: usize,
    pub a: Position,
    pub b: Position,
    pub plain: bool,
}

// A field with the id: the number of its paragraph, the places of the paragraph header, of the text's first byte and of its control
// header, and its paragraph's number of marks.
#[derive(Clone, Copy)]
pub struct Hit {
    pub paragraph: usize,
    pub header: Offset,
    pub text: Offset,
    pub control: Offset,
    pub marks: u32,
    pub field: Field,
}

// What the search met: no field with the id, one, or a second with this control header. Three ways, each with a number of its own.
#[derive(Clone, Copy)]
pub enum Met {
    Nothing,
    One(Hit),
    Twice(Offset),
}

// What the search of a section comes to: what was met, or check's refusal.
pub type SectionSearch = Result<Met, Refusal>;

// The unit that closes a field: its position, and whether it is code 4. No Option: where nothing closes it, a field itself has 0 and false.
#[derive(Clone, Copy)]
pub struct Closing {
    pub b: Position,
    pub plain: bool,
}

// How many extended controls of a paragraph are passed, from where on the next control header is sought, and how many belong to
// controls passed since.
#[derive(Clone, Copy)]
pub struct Passed {
    pub ordinal: usize,
    pub from: Offset,
    pub skipped: usize,
}

// The control headers passed behind a step, and the control header of the field with the id that the step was, if it was one.
#[derive(Clone, Copy)]
pub struct Seen {
    pub passed: Passed,
    pub control: Option<Offset>,
}

// The id in a field's control header; a byte that is not there counts as 0.
#[tactic(auto, unfolding(filling::specs::Fields::id_in))]
fn id_in(body: &[u8]) -> u32
    ensures { result ≡ id_in body.now }
{
    little_at::<4>(body, 11 + 2 * wide(little_at::<2>(body, 9)))
}

// The unit at which a step stands closes a field, where it is a control.
fn closing_at(step: Step) -> Closing
    ensures { result ≡ closing_by step }
{
    match step {
        Step::Stands {
            at: b,
            what: Standing::Control(c),
            ..
        } => Closing {
            b,
            plain: c.code == 4,
        },
        _ => Closing {
            b: Position(0),
            plain: false,
        },
    }
}

// The next unit below 32, from where on the text is sound.
fn closed_by(from: SoundFrom) -> Closing
    ensures { result ≡ closing_of (next (tokens_at (units from.entry.text.now) from.entry.at.0)) }
{
    closing_at(next_control(from.text, from.at))
}

// A field, by the control header that it owns.
fn own(s: &[u8], id: u32, passed: Passed, r: Record) -> Seen
    requires { passed.ordinal ≤ length s.now }
    ensures { result ≡ seen_of s.now id passed (K.Header r) }
{
    Seen {
        passed: Passed {
            ordinal: passed.ordinal + 1,
            from: r.next,
            skipped: 0,
        },
        control: (id_in(body(s, r)) == id).then_some(r.at),
    }
}

// A step that is no field with the id.
fn unseen(passed: Passed) -> Seen
    ensures { result ≡ Steps.unseen passed }
{
    Seen {
        passed,
        control: None,
    }
}

// What a step means to the search: an extended control owns the next control header.
fn pass(s: &[u8], level: u32, id: u32, what: Standing, passed: Passed) -> Seen
    requires { (passed.ordinal ≤ length s.now) × (passed.skipped ≤ passed.ordinal) }
    ensures { result ≡ seen_of s.now id passed (owned_by level passed.skipped passed.from.0 (records_in (drop passed.from.0 s.now)) (owner_of what)) }
{
    let Passed {
        ordinal,
        from,
        skipped,
    } = passed;
    match owned_header(s, from, level, skipped, what) {
        Owned::Header(r) => own(s, id, passed, r),
        Owned::Other => unseen(Passed {
            ordinal: ordinal + 1,
            from,
            skipped: skipped + 1,
        }),
        Owned::Nobody | Owned::Lacking => unseen(passed),
    }
}

// The field of a paragraph behind whose control, which owns the control header at `control`, the text is sound.
fn hit_at(g: Paragraph, ordinal: usize, control: Offset, from: SoundFrom) -> Hit
    ensures { result ≡ hit_from g ordinal from.entry.at control (closing_of (next (tokens_at (units from.entry.text.now) from.entry.at.0))) }
{
    let Closing { b, plain } = closed_by(from);
    Hit {
        paragraph: g.number,
        header: g.header,
        text: g.text.place,
        control,
        marks: g.marks,
        field: Field {
            ordinal,
            a: from.at,
            b,
            plain,
        },
    }
}

// What was met with a step that was the field that owns the control header at `control`, if it was one; the text is sound behind the step,
// and `ordinal` extended controls stand before it.
fn meet(met: Met, control: Option<Offset>, g: Paragraph, ordinal: usize, from: SoundFrom) -> Met
    ensures { result ≡ met_by met control (λ p. hit_from g ordinal from.entry.at p (closing_of (next (tokens_at (units from.entry.text.now) from.entry.at.0)))) }
{
    let Some(control) = control else {
        return met;
    };
    match met {
        Met::Nothing => Met::One(hit_at(g, ordinal, control, from)),
        Met::One(_) => Met::Twice(control),
        Met::Twice(_) => met,
    }
}

// All fields with the id, in stream order and in each paragraph in the order of its text. The second leaves paragraph and text together.
fn search(s: &[u8], id: u32) -> Met
    requires { Keep (records_in s.now) }
    ensures { result ≡ met_with Met.Nothing (hits id 0 0 (records_in s.now)) }
{
    let mut met = Met::Nothing;
    let mut number = 0;
    let mut at = Offset(0);
    // Nested loops broken by a label, over a cursor by value (document 01's forms).
    'search: loop {
        match look_at(s, number, at) {
            Look::Nothing => break,
            Look::Passed { paragraphs, next } => {
                number += paragraphs;
                at = next;
            }
            Look::Paragraph(g) => {
                let text = part(s, g.text.place.0, g.text.len);
                let mut passed = Passed {
                    ordinal: 0,
                    from: g.behind,
                    skipped: 0,
                };
                let mut walk = Position(0);
                while let Step::Stands { what, next, .. } = next_control(text, walk) {
                    walk = next.at;
                    let seen = pass(s, g.level, id, what, passed);
                    met = meet(
                        met,
                        seen.control,
                        g,
                        passed.ordinal,
                        SoundFrom::new(text, walk),
                    );
                    passed = seen.passed;
                    if matches!(met, Met::Twice(_)) {
                        break 'search;
                    }
                }
                number += 1;
                at = g.behind;
            }
        }
    }
    met
}

// The search of a section, behind check's numbers.
pub fn search_section(s: &[u8], id: u32) -> SectionSearch
    ensures { result ≡ section_search s.now id }
{
    check(s)?;
    Ok(search(s, id))
}
