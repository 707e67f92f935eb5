// The paragraphs of a window of 16 levels in one pass: where the parts of each stand is noted until it ends, and then it is judged. A section
// of ten levels takes one pass, however its paragraphs are nested; one of 1,000 takes sixty-three.
ghost use Rattle.std.specs.Prelude.{◌≡◌, ℕ, ◌+◌, ◌≤◌, ◌<◌, length};
ghost use Rattle.section.specs.Slots.{slots_fault, slot_at, Ended, noted_in, taken_in, held_slot, fault_in, place_or, Known};

use crate::slot::{Blamed, Slot};
use crate::whole::Whole;
use crate::windows::{index_of, inside, sooner};
use paragraph::records_from;
use records::{Kind, Offset};

// The levels of a window; a slot for each.
const LEVELS: u32 = 16;

const SLOTS: usize = LEVELS as usize;

// A record at a level with its parent's paragraph, where the window has that.
#[tactic(auto, unfolding(crate::specs::Slots::noted_in))]
fn note_child(slots: &mut [Slot; SLOTS], lo: u32, tag: u32, level: u32, place: u32)
    requires { (i : ℕ) → i < 16 → (slot_at slots.old i).controls < 4294967295 }
    ensures { slots.new ≡ noted_in lo slots.old tag level place }
{
    if let Some(i) = index_of::<LEVELS>(lo, level) {
        slots[i].note(tag, place);
    }
}

// A record takes its own slot, where the window has one for it.
#[tactic(auto, unfolding(crate::specs::Slots::taken_in))]
fn take_own(slots: &mut [Slot; SLOTS], lo: u32, tag: u32, below: u32, place: u32)
    ensures { slots.new ≡ taken_in lo slots.old tag below place }
{
    if let Some(i) = index_of::<LEVELS>(lo, below) {
        let header = if tag == Kind::PARAGRAPH_HEADER {
            place
        } else {
            0
        };
        slots[i] = Slot::of(header);
    }
}

// The slot that a record takes, where a paragraph stands in it: the record ends that.
#[tactic(auto, unfolding(crate::specs::Slots::held_in))]
fn held(slots: &[Slot; SLOTS], lo: u32, below: u32) -> Option<usize>
    ensures { result ≡ held_slot lo slots.now below }
{
    let i = index_of::<LEVELS>(lo, below)?;
    if 0 < slots[i].header { Some(i) } else { None }
}

// The paragraphs that are in their slots where the stream ends.
fn judge_slots(s: &[u8], slots: &[Slot; SLOTS]) -> Option<Blamed>
    requires { (i : ℕ) → i < 16 → Ended s.now (slot_at slots.now i) }
    ensures { (place_or (length s.now) result ≡ slots_fault s.now slots.now 16) × Known s.now result }
{
    let mut first = None;
    for slot in slots {
        first = sooner(first, slot.judge(s));
    }
    first
}

// One pass: the first paragraph at fault of those in the window from lo on. A record is noted with its parent's paragraph, and takes its own slot;
// the paragraph that stood there has ended, and is judged.
fn gather(whole: Whole, lo: u32) -> Option<Blamed>
    requires { lo ≤ 1024 }
    ensures { (place_or (length whole.entry.stream.now) result ≡ fault_in lo (lo + 16) whole.entry.stream.now) × Known whole.entry.stream.now result }
{
    let mut slots = [Slot::of(0); SLOTS];
    let end = lo + LEVELS + 1;
    let mut first = None;
    for r in records_from(whole.stream, Offset(0)) {
        let below = r.level + 1;
        if inside(lo, end, below) {
            let place = (r.at.0 + 1) as u32;
            note_child(&mut slots, lo, r.tag, r.level, place);
            if let Some(i) = held(&slots, lo, below) {
                first = sooner(first, slots[i].judge(whole.stream));
            }
            take_own(&mut slots, lo, r.tag, below, place);
        }
    }
    sooner(first, judge_slots(whole.stream, &slots))
}

// The first paragraph at fault of all: a window behind the other, as deep as the records go.
pub fn first_at_fault(whole: Whole) -> Option<Blamed>
    ensures { (place_or (length whole.entry.stream.now) result ≡ fault_in 0 1025 whole.entry.stream.now) × Known whole.entry.stream.now result }
{
    let mut first = None;
    for lo in (0..=whole.deepest + 1).step_by(SLOTS) {
        first = sooner(first, gather(whole, lo));
    }
    first
}
