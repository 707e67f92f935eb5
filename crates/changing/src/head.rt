// The paragraph header after a fill.
ghost use Rattle.std.specs.Prelude.{◌≡◌, ◌≤◌, ◌<◌, length};
ghost use Rattle.records.specs.Records.{encode_one};
ghost use Rattle.filling.specs.Filling.{recounted, new_head};
ghost use Rattle.putting.specs.Sheet.{Put};

use numbers::{little, wide};
use putting::{Change, Sheet};

// The 32 bits that hold the count, changed; bit 31 is kept.
fn recount(change: Change, w: usize) -> usize
    requires { w < 4294967296 }
    ensures { result ≡ recounted change.a.0 change.b.0 change.v w }
{
    let flag = w & 0x8000_0000;
    let count = (w & 0x7fff_ffff) + wide(change.v);
    flag + count.saturating_sub(change.gone())
}

// Puts the paragraph header: the count changed, the number of shapes, and no lines. It takes no Piece, for it asks of the body's length nothing
// but the 22 bytes.
pub fn put_paragraph(
    sheet: &mut Sheet,
    tag: u32,
    level: u32,
    body: &[u8],
    shapes: usize,
    change: Change,
)
    requires { 22 ≤ length body.now }
    ensures { Put sheet.old (encode_one (record { tag = tag; level = level; body = new_head change.a.0 change.b.0 change.v shapes body.now })) sheet.new }
{
    sheet.put_head(tag, level, body.len());
    sheet.put_low(recount(change, wide(little::<4>(body))), 4);
    sheet.put_part(body, 4, 8);
    sheet.put_low(shapes, 2);
    sheet.put_part(body, 14, 2);
    sheet.put_low(0, 2);
    sheet.put_rest(body, 18);
}
