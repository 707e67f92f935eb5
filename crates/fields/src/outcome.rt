// What a search comes to, and the text of a field.
ghost use Rattle.std.specs.Prelude.{◌≡◌};
ghost use Rattle.fields.specs.Outcomes.{plain_field};
ghost use Rattle.orders.specs.Calls.{field_text_of};

use filling::{Span, TextAnswer};
use paragraph::unit_place;
use records::{Fault, Offset, Refusal, refused};
use search::{Hit, Met, search_section};

// One plain field with the id, or a refusal: 21 to 23, for a fill 20 and 24 too.
pub type Searched = Result<Hit, Refusal>;

// The one plain field with the id, by what the search met.
#[tactic(auto, unfolding(crate::specs::Outcomes::plain_field))]
pub fn find_field(met: Met) -> Searched
    ensures { result ≡ plain_field met }
{
    match met {
        Met::Nothing => refused(Fault::NoField, Offset(0)),
        Met::Twice(second) => refused(Fault::FieldTwice, second),
        Met::One(h) if h.field.plain => Ok(h),
        Met::One(h) => refused(Fault::FieldNotPlain, h.control),
    }
}

// The text of a field: the section's numbers without 7, then 21 to 23, else where it starts and how many bytes it has.
pub fn field_text(s: &[u8], id: u32) -> TextAnswer
    ensures { result ≡ field_text_of s.now id }
{
    let h = find_field(search_section(s, id)?)?;
    Ok(Span {
        place: unit_place(h.text, h.field.a),
        len: 2 * (h.field.b.0 - h.field.a.0),
    })
}
