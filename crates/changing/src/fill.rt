// What a fill puts where, and a record that it puts.
ghost use Rattle.std.specs.Prelude.{◌≡◌};
ghost use Rattle.changing.specs.Child.{change_of, record_of, record_read};

use paragraph::body;
use putting::{Change, NarrowBytes};
use records::Record;
use text::Position;

// Where in its paragraph the field stands: how many extended controls stand before it, and the positions at which its value starts
// and ends.
#[derive(Clone, Copy)]
pub struct Spot {
    pub ordinal: usize,
    pub a: Position,
    pub b: Position,
}

// A field by where it stands, and the value that comes into it.
#[derive(Clone, Copy)]
pub struct Fill<'a> {
    pub spot: Spot,
    pub value: NarrowBytes<'a>,
}

impl<'a> Fill<'a> {
    // What it does to the positions of the text.
    pub fn change(self) -> Change
        ensures { result ≡ change_of self.entry }
    {
        Change {
            a: self.spot.a,
            b: self.spot.b,
            v: (self.value.bytes.len() / 2) as u32,
        }
    }
}

// A record by its tag, its level and its body.
#[derive(Clone, Copy)]
pub struct Piece<'a> {
    pub tag: u32,
    pub level: u32,
    pub body: NarrowBytes<'a>,
}

// A record of the stream with its body.
pub fn piece_of<'a>(s: NarrowBytes<'a>, r: Record) -> Piece<'a>
    ensures { record_of result ≡ record_read s.entry.bytes.now r }
{
    Piece {
        tag: r.tag,
        level: r.level,
        body: NarrowBytes {
            bytes: body(s.bytes, r),
        },
    }
}
