// Fill: the sheet that a section becomes with one field filled (document 01, 'Filling a field').
ghost use Rattle.std.specs.Prelude.{◌≡◌, length};
ghost use Rattle.records.specs.Table.{written};
ghost use Rattle.filling.specs.Filling.{fits};
ghost use Rattle.orders.specs.Promise.{Filled};
ghost use Rattle.fields.specs.Outcomes.{fillable_field, leaves, hit_sheet};

use crate::outcome::{Searched, find_field};
use crate::value::value_wrong;
use records::{Answer, Fault, LIMIT, Offset, refused};
use search::{Field, Hit, Met, search_section};
use writing::{Spot, measure, write};

// The field that may be filled: 20, then 21 to 23, then 24.
#[tactic(auto, unfolding(crate::specs::Outcomes::fillable_field, crate::specs::Outcomes::unmarked_field))]
fn find_fillable(met: Met, value: &[u8]) -> Searched
    ensures { result ≡ fillable_field value.now met }
{
    if value_wrong(value) {
        return refused(Fault::ValueWrong, Offset(0));
    }
    let h = find_field(met)?;
    if h.marks != 0 {
        return refused(Fault::MarksInParagraph, h.header);
    }
    Ok(h)
}

// The sheet measured, 25 and 26 judged, and the sheet written.
#[tactic(auto, using(crate::proofs::FillLaws::put_laws))]
fn put_sheet(s: &[u8], h: Hit, value: &[u8], out: &mut [u8]) -> Answer
    ensures { (result ≡ fits (length (hit_sheet h value.now s.now)) (length out.old)) × (out.new ≡ written (leaves result (hit_sheet h value.now s.now)) out.old) }
{
    let Field { ordinal, a, b, .. } = h.field;
    let spot = Spot { ordinal, a, b };
    let n = measure(s, h.header, spot, value);
    if LIMIT < n {
        return refused(Fault::SheetTooLong, Offset(0));
    }
    if out.len() < n {
        return refused(Fault::BufferTooShort, Offset(0));
    }
    write(out, s, h.header, spot, value);
    Ok(n)
}

// Fills the field with the id: the section's numbers without 7, then 20 to 26, else the length of the sheet, which stands at the front
// of out. Bytes past it stay; a refusal changes no byte.
pub fn fill(s: &[u8], id: u32, value: &[u8], out: &mut [u8]) -> Answer
    ensures { Filled s.now id value.now out.old result out.new }
{
    let met = search_section(s, id)?;
    let h = find_fillable(met, value)?;
    put_sheet(s, h, value, out)
}
