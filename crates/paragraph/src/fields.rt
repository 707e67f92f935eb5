// Controls and the control headers that they own.
ghost use Rattle.std.specs.Prelude.{◌≡◌, drop};
ghost use Rattle.paragraph.specs.Stream.{records_in};
ghost use Rattle.paragraph.specs.Rules.{owner_of, field_short};
ghost use Rattle.paragraph.specs.Places.{owned_by, unit_place};

use crate::children::find;
use numbers::little;
use records::{Kind, Offset, Record};
use text::{Class, Control, Position, Standing};

// The place of a position of the text whose first byte stands at `text`. Only here does a position become a place; a sum that no
// number holds is given as the largest.
pub fn unit_place(text: Offset, position: Position) -> Offset
    ensures { result ≡ unit_place text position }
{
    Offset(text.0.saturating_add(position.0.saturating_mul(2)))
}

// A field's control header is too short for its command.
#[tactic(auto, using(numbers::proofs::LittleLaws::part_rest), unfolding(crate::specs::Rules::field_short))]
pub fn field_short(body: &[u8]) -> bool
    ensures { result ≡ field_short body.now }
{
    body.len() < 15 || body.len() < 15 + 2 * (little::<2>(&body[9..]) as usize)
}

// The control header that something in the text owns: four ways on.
#[derive(Clone, Copy)]
pub enum Owned {
    // It owns none.
    Nobody,
    // It owns one, and is no field: no rule looks into it.
    Other,
    // There is none left.
    Lacking,
    Header(Record),
}

// What stands in the text owns the next control header from `at` on, behind `skipped` of them.
pub fn owned_header(s: &[u8], at: Offset, n: u32, skipped: usize, what: Standing) -> Owned
    ensures { result ≡ owned_by n skipped at.0 (records_in (drop at.0 s.now)) (owner_of what) }
{
    let Standing::Control(
        Control {
            class: Class::Extended,
            code,
        },
    ) = what
    else {
        return Owned::Nobody;
    };
    if code != 3 {
        return Owned::Other;
    }
    find(s, at, n, Kind::CONTROL_HEADER, skipped).map_or(Owned::Lacking, Owned::Header)
}
