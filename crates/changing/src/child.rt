// The records of the filled paragraph, by kind.
ghost use Rattle.std.specs.Prelude.{◌≡◌, ◌*◌, min, length};
ghost use Rattle.records.specs.Records.{encode_one};
ghost use Rattle.filling.specs.Shapes.{packed, shapes_in, shapes_after};
ghost use Rattle.filling.specs.Filling.{altered};
ghost use Rattle.putting.specs.Sheet.{Put};
ghost use Rattle.changing.specs.Child.{record_with, text_put, shapes_put, child_put};

use crate::fill::{Fill, Piece};
use filling::with_bit_15;
use numbers::{little, part, wide};
use paragraph::unit_place;
use putting::{Change, Sheet, put_entries};
use records::{Kind, Offset};
use text::Position;

// Puts a record as it was. It takes no Piece, for it asks nothing of the body's length.
pub fn put_same(sheet: &mut Sheet, tag: u32, level: u32, body: &[u8])
    ensures { Put sheet.old (encode_one (record { tag = tag; level = level; body = body.now })) sheet.new }
{
    sheet.put_head(tag, level, body.len());
    sheet.put_run(body);
}

// The first byte of a position in a text of this length, or the text's end.
fn byte_of(position: Position, len: usize) -> usize
    ensures { result ≡ min (2 * position.0) len }
{
    unit_place(Offset(0), position).0.min(len)
}

// Puts the text: from a to b it is the value. Here and below the length that is put is the new body's.
fn put_text(sheet: &mut Sheet, piece: Piece, fill: Fill)
    ensures { Put sheet.old (text_put fill.entry piece.entry) sheet.new }
{
    let body = piece.body.bytes;
    let value = fill.value.bytes;
    let from = byte_of(fill.spot.a, body.len());
    let to = byte_of(fill.spot.b, body.len());
    let len = from + value.len() + (body.len() - to);
    sheet.put_head(piece.tag, piece.level, len);
    sheet.put_part(body, 0, from);
    sheet.put_run(value);
    sheet.put_rest(body, to);
}

// How many bytes the shapes take after a fill: as many as would be put.
pub fn shapes_length(body: &[u8], change: Change) -> usize
    ensures { result ≡ length (packed (shapes_after change.a.0 change.b.0 change.v (shapes_in body.now))) }
{
    let mut none = [0u8; 0];
    let mut sheet = Sheet {
        out: &mut none,
        at: Offset(0),
    };
    put_entries(&mut sheet, body, change);
    sheet.at.0
}

// Puts the shapes.
fn put_shapes(sheet: &mut Sheet, piece: Piece, change: Change)
    ensures { Put sheet.old (shapes_put change piece.entry) sheet.new }
{
    let body = piece.body.bytes;
    sheet.put_head(piece.tag, piece.level, shapes_length(body, change));
    put_entries(sheet, body, change);
}

// Puts the field's control header, with bit 15 of its properties set.
fn put_altered(sheet: &mut Sheet, piece: Piece)
    ensures { Put sheet.old (encode_one (record_with piece.entry (altered piece.entry.body.bytes.now))) sheet.new }
{
    let body = piece.body.bytes;
    let front = body.len().min(4);
    let rest = body.len().saturating_sub(8);
    let properties = little::<4>(part(body, 4, body.len()));
    sheet.put_head(piece.tag, piece.level, front + 4 + rest);
    sheet.put_part(body, 0, 4);
    sheet.put_low(wide(with_bit_15(properties)), 4);
    sheet.put_rest(body, 8);
}

// Puts what becomes of an owned child, before which `nth` control headers stand.
pub fn put_child(sheet: &mut Sheet, piece: Piece, nth: usize, fill: Fill)
    ensures { Put sheet.old (child_put fill.entry nth piece.entry) sheet.new }
{
    match piece.tag {
        Kind::TEXT => put_text(sheet, piece, fill),
        Kind::SHAPES => put_shapes(sheet, piece, fill.change()),
        Kind::LAYOUT => {}
        Kind::CONTROL_HEADER if nth == fill.spot.ordinal => put_altered(sheet, piece),
        _ => put_same(sheet, piece.tag, piece.level, piece.body.bytes),
    }
}
