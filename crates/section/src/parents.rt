// Where records 67 to 70 stand: rule 9. A pass keeps 200 bytes on the stack, one for each level of a window; the first is the reading's own
// (opening), and only a stream that goes deeper is passed again, for the next 200 levels. A level has one byte, with a bit for each of 67 to 70: an
// enum and four flags would take five bytes of the stack.
ghost use Rattle.std.specs.Prelude.{◌≡◌, [], ◌+◌, ◌≤◌, ◌<◌, length, get_or, set};
ghost use Rattle.records.specs.Reading.{read_all};
ghost use Rattle.section.specs.Parents.{leaf, stray_from, stray_of};
ghost use Rattle.section.specs.Seats.{own_code, bit_of, seat_leaf, seat_of};
ghost use Rattle.section.specs.Sweeps.{index_in, is_stray, seat_in, seated_in, stray_at};

use crate::whole::Whole;
use crate::windows::{index_of, inside, sooner};
use records::{Kind, Offset, records_of};

// The levels of one window.
pub const LEVELS: u32 = 200;

// Records 67 to 70, which have no children.
#[tactic(auto, unfolding(crate::specs::Parents::leaf))]
fn is_leaf(tag: u32) -> bool
    ensures { result ≡ leaf tag }
{
    matches!(tag, Kind::TEXT..=Kind::MARKS)
}

// The number for the children of a record with a tag.
#[tactic(auto, unfolding(crate::specs::Seats::own_code, crate::specs::Parents::header))]
fn own_code(tag: u32) -> u8
    ensures { result ≡ own_code tag }
{
    if tag == Kind::PARAGRAPH_HEADER {
        0
    } else if is_leaf(tag) {
        32
    } else {
        16
    }
}

// The bit of a record 67 to 70 in its parent's number.
#[tactic(auto, unfolding(crate::specs::Seats::bit_of))]
fn bit(tag: u32) -> u8
    ensures { (result ≡ bit_of tag) × (1 ≤ result) × (result ≤ 8) }
{
    match tag {
        Kind::TEXT => 1,
        Kind::SHAPES => 2,
        Kind::LAYOUT => 4,
        _ => 8,
    }
}

// The number with the bit of a record 67 to 70; none where 9 names the record: its parent is no paragraph header, or has one with that tag.
#[tactic(auto, unfolding(crate::specs::Seats::seat_leaf, crate::specs::Seats::has))]
fn seat_leaf(code: u8, tag: u32) -> Option<u8>
    ensures { result ≡ seat_leaf code tag }
{
    if 16 <= code {
        return None;
    }
    let b = bit(tag);
    if code / b % 2 == 1 {
        None
    } else {
        Some(code + b)
    }
}

// What becomes of a number where a record stands; none where 9 names the record.
#[tactic(auto, unfolding(crate::specs::Seats::seat_of))]
fn take_seat(code: u8, tag: u32) -> Option<u8>
    ensures { result ≡ seat_of code tag }
{
    if code == 32 {
        None
    } else if is_leaf(tag) {
        seat_leaf(code, tag)
    } else {
        Some(code)
    }
}

// The number that is kept for a level; 0, with which any record takes its seat, outside the window.
// A slice, with its length in the contract: a table that is too short is then refused because that is not proved, not for its type.
fn kept(table: &[u8], lo: u32, level: u32) -> u8
    requires { length table.now ≡ 200 }
    ensures { result ≡ get_or table.now (index_in lo level) 0 }
{
    match index_of::<LEVELS>(lo, level) {
        Some(i) => table[i],
        None => 0,
    }
}

// Keeps a number for a level; none outside the window.
fn keep(table: &mut [u8], lo: u32, level: u32, code: u8)
    requires { length table.old ≡ 200 }
    ensures { table.new ≡ set table.old (index_in lo level) code }
{
    if let Some(i) = index_of::<LEVELS>(lo, level) {
        table[i] = code;
    }
}

// Whether 9 names a record whose level is in the window from lo on. If not, the record takes its seat, and the number for its children is kept.
pub fn strays(table: &mut [u8], lo: u32, tag: u32, level: u32) -> bool
    requires long { length table.old ≡ 200 }
    requires low { level < 1024 }
    ensures { (result ≡ is_stray (seat_in lo table.old tag level)) × (table.new ≡ seated_in lo table.old tag level) }
{
    let Some(code) = take_seat(kept(table, lo, level), tag) else {
        return true;
    };
    keep(table, lo, level, code);
    keep(table, lo, level + 1, own_code(tag));
    false
}

// One pass with a number for each level of the window from lo on: what the parent of a record at that level is, and which of 67 to 70 it has. It
// gives the earliest stray whose level is in the window. A record costs no more than its header where neither its level nor its children's is in
// the window.
fn sweep(s: &[u8], lo: u32) -> Option<Offset>
    requires { lo < 1024 }
    ensures { result ≡ stray_at lo (lo + 200) s.now }
{
    let mut table = [16u8; LEVELS as usize];
    let end = lo + LEVELS + 1;
    for item in records_of(s, Offset(0), 0) {
        let Ok(r) = item else {
            return None;
        };
        if inside(lo, end, r.level + 1) && strays(&mut table, lo, r.tag, r.level) {
            return Some(r.at);
        }
    }
    None
}

// The earliest stray of all, by that of the first window: a pass for each further window down to the deepest level.
pub fn find_stray(whole: Whole, stray: Option<Offset>) -> Option<Offset>
    requires { stray ≡ stray_at 0 200 whole.stream.now }
    ensures { result ≡ stray_of (stray_from 0 [] (read_all whole.entry.stream.now).recs) }
{
    let mut first = stray;
    for lo in (LEVELS..=whole.deepest).step_by(LEVELS as usize) {
        first = sooner(first, sweep(whole.stream, lo));
    }
    first
}
