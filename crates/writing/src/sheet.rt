// The sheet of a fill: measured, and written.
ghost use Rattle.std.specs.Prelude.{◌≡◌, min, length, drop};
ghost use Rattle.records.specs.Kinds as kind;
ghost use Rattle.paragraph.specs.View.{kids, child};
ghost use Rattle.paragraph.specs.Stream.{records_in};
ghost use Rattle.filling.specs.Shapes.{shapes_after};
ghost use Rattle.filling.specs.Filling.{shapes_of};
ghost use Rattle.putting.specs.Putting.{largest, Puts};
ghost use Rattle.putting.specs.Sheet.{Put};
ghost use Rattle.changing.specs.Child.{field_at};
ghost use Rattle.writing.specs.Sheet.{sheet_put, sheet_written};

use crate::behind::put_behind;
use changing::{Fill, Piece, Spot, piece_of, put_paragraph, shapes_length};
use paragraph::{bytes, find};
use putting::{Change, NarrowBytes, Sheet};
use records::{Kind, Offset, record_at};

// How many shapes a paragraph has after a fill; the records behind its header begin at `behind`, its children are at level n.
fn count_shapes(s: &[u8], behind: Offset, n: u32, change: Change) -> usize
    ensures { result ≡ length (shapes_after change.a.0 change.b.0 change.v (shapes_of (child kind.shapes (kids n (records_in (drop behind.0 s.now)))))) }
{
    shapes_length(bytes(s, find(s, behind, n, Kind::SHAPES, 0)), change) / 8
}

// Puts the sheet: the stream up to the paragraph header, the paragraph changed, and all behind it.
fn put_sheet(sheet: &mut Sheet, s: NarrowBytes, header: Offset, fill: Fill)
    ensures { Put sheet.old (sheet_put fill.entry s.entry.bytes.now header.0) sheet.new }
{
    sheet.put_part(s.bytes, 0, header.0);
    let Some(Ok(r)) = record_at(s.bytes, header, 1023) else {
        return sheet.put_rest(s.bytes, header.0);
    };
    if r.len < 22 {
        return sheet.put_rest(s.bytes, header.0);
    }
    let n = r.level + 1;
    let change = fill.change();
    let shapes = count_shapes(s.bytes, r.next, n, change);
    let Piece { tag, level, body } = piece_of(s, r);
    put_paragraph(sheet, tag, level, body.bytes, shapes, change);
    put_behind(sheet, s, r.next, n, fill);
}

// Writes the sheet to the front of the buffer and says how many bytes it has. Those that have no room are not written.
pub fn write(out: &mut [u8], s: &[u8], header: Offset, spot: Spot, value: &[u8]) -> usize
    ensures { Puts out.old 0 (sheet_written (field_at spot) value.now s.now header.0) result out.new }
{
    let Some(s) = NarrowBytes::of(s) else {
        return 0;
    };
    let Some(value) = NarrowBytes::of(value) else {
        return 0;
    };
    let mut sheet = Sheet { out, at: Offset(0) };
    put_sheet(&mut sheet, s, header, Fill { spot, value });
    sheet.at.0
}

// How many bytes the sheet has: the same walk, with no room to write.
pub fn measure(s: &[u8], header: Offset, spot: Spot, value: &[u8]) -> usize
    ensures { result ≡ min largest (length (sheet_written (field_at spot) value.now s.now header.0)) }
{
    let mut none = [0u8; 0];
    write(&mut none, s, header, spot, value)
}
