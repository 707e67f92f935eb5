// The records behind the header of the filled paragraph.
ghost use Rattle.std.specs.Prelude.{◌≡◌, ◌<◌};
ghost use Rattle.putting.specs.Sheet.{Put};
ghost use Rattle.writing.specs.Sheet.{below_put, controls_passed, behind_put};

use changing::{Fill, Piece, piece_of, put_child, put_same};
use paragraph::{Side, records_from, stands_to};
use putting::{NarrowBytes, Sheet};
use records::{Kind, Offset};

// The paragraph's children as they are passed: the level at which they are, and how many control headers of them are passed.
#[derive(Clone, Copy)]
pub struct Children {
    pub n: u32,
    pub nth: usize,
}

// Puts what becomes of a record below the paragraph header.
fn put_below(sheet: &mut Sheet, children: Children, piece: Piece, fill: Fill)
    ensures { Put sheet.old (below_put fill.entry children piece.entry) sheet.new }
{
    match stands_to(children.n, piece.tag, piece.level) {
        Side::Owned => put_child(sheet, piece, children.nth, fill),
        Side::Beyond | Side::Passed => put_same(sheet, piece.tag, piece.level, piece.body.bytes),
    }
}

// How many control headers stand before the next record.
#[tactic(auto, using(crate::proofs::BehindLaws::passed_control, crate::proofs::BehindLaws::passed_same))]
fn controls_passed(children: Children, tag: u32, level: u32) -> usize
    requires { children.nth < 18446744073709551615 }
    ensures { result ≡ controls_passed children.n children.nth tag level }
{
    let owned = matches!(stands_to(children.n, tag, level), Side::Owned);
    if owned && tag == Kind::CONTROL_HEADER {
        children.nth + 1
    } else {
        children.nth
    }
}

// Puts the records from `from` on: those below the paragraph header changed, all behind them in one run.
pub fn put_behind(sheet: &mut Sheet, s: NarrowBytes, from: Offset, n: u32, fill: Fill)
    ensures { Put sheet.old (behind_put fill.entry n s.entry.bytes.now from.0) sheet.new }
{
    let mut children = Children { n, nth: 0 };
    let mut end = from;
    for r in records_from(s.bytes, from) {
        if r.level < n {
            break;
        }
        put_below(sheet, children, piece_of(s, r), fill);
        children.nth = controls_passed(children, r.tag, r.level);
        end = r.next;
    }
    sheet.put_rest(s.bytes, end.0);
}
