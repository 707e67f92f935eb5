// What is noted of one paragraph until it ends, and how it is judged then.
ghost use Rattle.std.specs.Prelude.{◌≡◌, ◌<◌, true, length};
ghost use Rattle.section.specs.Slots.{part_found, parts_of, slot_fault, Ended, first_of, noted, fresh, place_of_blamed, place_or, Known};

use crate::windows::Placed;
use judgement::head_fault;
use numbers::wide;
use paragraph::{Breach, Parts, body};
use records::{Kind, Offset, Record, record_at};

// A paragraph whose children are at one level: where its header stands, and where its text, shapes, layout and marks, each place plus one, and 0
// where there is none (an Option would take twice the stack); and how many control headers it has.
#[derive(Clone, Copy)]
pub struct Slot {
    pub header: u32,
    pub text: u32,
    pub shapes: u32,
    pub layout: u32,
    pub marks: u32,
    pub controls: u32,
}

// The record that an entry names.
#[tactic(auto, unfolding(crate::specs::Slots::part_found))]
fn part_at(s: &[u8], entry: u32) -> Option<Record>
    ensures { result ≡ part_found s.now entry }
{
    let place = entry.checked_sub(1)?;
    record_at(s, Offset(wide(place)), 1023)?.ok()
}

// An entry where one more record of its tag stands at a place: it names the first.
fn first(entry: u32, place: u32) -> u32
    ensures { result ≡ first_of true place entry }
{
    if entry == 0 { place } else { entry }
}

// A paragraph at fault: where its header stands, and what was found of it.
#[derive(Clone, Copy)]
pub struct Blamed {
    pub at: Offset,
    pub breach: Breach,
}

impl Placed for Blamed {
    ghost place_is = { place_of_blamed };

    fn place(&self) -> usize {
        self.at.0
    }
}

impl Slot {
    // A slot with the paragraph header at a place, or with none.
    pub fn of(header: u32) -> Slot
        ensures { result ≡ fresh header }
    {
        Slot {
            header,
            text: 0,
            shapes: 0,
            layout: 0,
            marks: 0,
            controls: 0,
        }
    }

    // Notes a record as a child of the paragraph, if there is one.
    #[tactic(auto, unfolding(crate::specs::Slots::noted))]
    pub fn note(&mut self, tag: u32, place: u32)
        requires { self.old.controls < 4294967295 }
        ensures { self.new ≡ noted self.old tag place }
    {
        if self.header == 0 {
            return;
        }
        match tag {
            Kind::TEXT => self.text = first(self.text, place),
            Kind::SHAPES => self.shapes = first(self.shapes, place),
            Kind::LAYOUT => self.layout = first(self.layout, place),
            Kind::MARKS => self.marks = first(self.marks, place),
            Kind::CONTROL_HEADER => self.controls += 1,
            _ => {}
        }
    }

    // The parts that are noted.
    #[tactic(auto, unfolding(crate::specs::Slots::parts_of))]
    fn parts(&self, s: &[u8]) -> Parts
        ensures { result ≡ parts_of s.now self.now }
    {
        Parts {
            text: part_at(s, self.text),
            shapes: part_at(s, self.shapes),
            layout: part_at(s, self.layout),
            marks: part_at(s, self.marks),
            controls: wide(self.controls),
        }
    }

    // The paragraph, if it is at fault.
    pub fn judge(&self, s: &[u8]) -> Option<Blamed>
        requires { Ended s.now self.now }
        ensures { (place_or (length s.now) result ≡ slot_fault s.now self.now.header) × Known s.now result }
    {
        let r = part_at(s, self.header)?;
        match head_fault(s, r.next, r.level + 1, body(s, r), self.parts(s)) {
            Ok(()) => None,
            Err(breach) => Some(Blamed { at: r.at, breach }),
        }
    }
}
