// The character shapes after a fill.
ghost use Rattle.std.specs.Prelude.{◌≡◌, ◌-◌, ◌/◌, ◌*◌, ◌+◌, ◌≤◌, ◌<◌, length, drop};
ghost use Rattle.filling.specs.Shapes.{entry_at, inside, any_inside, moved, packed, shapes_in, shapes_after};
ghost use Rattle.putting.specs.Sheet.{Put};
ghost use Rattle.putting.specs.Keeping.{shapes_from, kept};

use crate::put::Sheet;
use numbers::{little, wide};
use text::Position;

// What a fill does to the positions of a text: those from a up to b go, v come in their place.
#[derive(Clone, Copy)]
pub struct Change {
    pub a: Position,
    pub b: Position,
    pub v: u32,
}

impl Change {
    // How many positions go.
    pub fn gone(self) -> usize
        ensures { (result ≡ self.b.0 - self.a.0) × (result ≤ self.b.0) }
    {
        self.b.0.saturating_sub(self.a.0)
    }

    // A start from a to b inclusive.
    #[tactic(auto, unfolding(filling::specs::Shapes::inside))]
    fn meets(self, start: Position) -> bool
        ensures { result ≡ inside self.a.0 self.b.0 start.0 }
    {
        (self.a.0..=self.b.0).contains(&start.0)
    }

    // Where a start goes that is kept.
    #[tactic(auto, using(filling::proofs::ShapeLaws::moved_low, filling::proofs::ShapeLaws::moved_near, filling::proofs::ShapeLaws::moved_far))]
    fn new_start(self, start: Position) -> Position
        requires { start.0 < 4294967296 }
        ensures { result.0 ≡ moved self.a.0 self.b.0 self.v start.0 }
    {
        if start.0 < self.a.0 {
            return start;
        }
        if self.b.0 < start.0 {
            return Position(start.0 + wide(self.v) - self.gone());
        }
        Position(self.a.0 + wide(self.v))
    }
}

// Where entry i of a shapes record starts.
fn start_of(body: &[u8], i: usize) -> Position
    requires { i < length body.now / 8 }
    ensures { (result.0 ≡ (entry_at (drop (8 * i) body.now)).start) × (result.0 < 4294967296) }
{
    Position(wide(little::<4>(&body[8 * i..])))
}

// An entry from number `from` on starts inside. On starts that rise the first one looked at tells, but for the last inside.
fn any_inside(body: &[u8], from: usize, change: Change) -> bool
    ensures { result ≡ any_inside change.a.0 change.b.0 (shapes_from body.now from) }
{
    for i in from..body.len() / 8 {
        if change.meets(start_of(body, i)) {
            return true;
        }
    }
    false
}

// Puts entry i with its new start, if it is kept.
fn put_kept(sheet: &mut Sheet, body: &[u8], i: usize, change: Change)
    requires { i < length body.now / 8 }
    ensures { Put sheet.old (packed (kept change.a.0 change.b.0 change.v (entry_at (drop (8 * i) body.now)) (shapes_from body.now (i + 1)))) sheet.new }
{
    let start = start_of(body, i);
    if change.meets(start) && any_inside(body, i + 1, change) {
        return;
    }
    sheet.put_low(change.new_start(start).0, 4);
    sheet.put_part(body, 8 * i + 4, 4);
}

// Puts the entries: of those from a to b inclusive only the last is kept.
pub fn put_entries(sheet: &mut Sheet, body: &[u8], change: Change)
    ensures { Put sheet.old (packed (shapes_after change.a.0 change.b.0 change.v (shapes_in body.now))) sheet.new }
{
    for i in 0..body.len() / 8 {
        put_kept(sheet, body, i, change);
    }
}
