// Number 20: the value of a fill, two bytes for each unit.
ghost use Rattle.std.specs.Prelude.{◌≡◌};
ghost use Rattle.text.specs.Units.{units};
ghost use Rattle.filling.specs.Filling.{any_below, value_wrong};

use reader::next_control;
use text::{Position, Step};

// A unit below 32: the walk of the value meets one.
fn any_control(value: &[u8]) -> bool
    ensures { result ≡ any_below 32 (units value.now) }
{
    !matches!(next_control(value, Position(0)), Step::End)
}

// An odd number of bytes, over 1,024 units, or a unit below 32.
#[tactic(auto, unfolding(filling::specs::Filling::value_wrong))]
pub fn value_wrong(value: &[u8]) -> bool
    ensures { result ≡ value_wrong value.now }
{
    value.len() % 2 == 1 || 1024 < value.len() / 2 || any_control(value)
}
