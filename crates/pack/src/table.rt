// A table of records over lent bytes, and its rows.
ghost use Rattle.std.specs.Prelude.{◌≡◌, ◌+◌, ◌≤◌, ◌<◌, length, take, drop};
ghost use Rattle.records.specs.Table.{room_in, shortest};
ghost use Rattle.pack.specs.Rows.{lists_of, row_at};

use numbers::wide;

// The first `count` entries of five lists, and the bytes that they point into. C lends each list by itself, so they are no list of rows.
#[derive(Clone, Copy)]
pub struct Table<'a> {
    pub count: usize,
    pub tags: &'a [u32],
    pub levels: &'a [u32],
    pub places: &'a [u32],
    pub lengths: &'a [u32],
    pub parents: &'a [u32],
    pub bytes: &'a [u8],
}

// An entry of each of the first four lists.
#[derive(Clone, Copy)]
pub struct Row {
    pub tag: u32,
    pub level: u32,
    pub place: usize,
    pub len: usize,
}

impl<'a> Table<'a> {
    // How many records the shortest list has room for.
    pub(crate) fn room(self) -> usize
        ensures { result ≡ room_in (lists_of self.entry) }
    {
        records::room(
            self.tags,
            self.levels,
            self.places,
            self.lengths,
            self.parents,
        )
    }

    // A row of the table.
    pub(crate) fn row(self, i: usize) -> Row
        requires { i < shortest self.tags.now self.levels.now self.places.now self.lengths.now }
        ensures is { result ≡ row_at (lists_of self.entry) i }
        ensures small { (result.place < 4294967296) × (result.len < 4294967296) }
    {
        Row {
            tag: self.tags[i],
            level: self.levels[i],
            place: wide(self.places[i]),
            len: wide(self.lengths[i]),
        }
    }

    // The bytes that a row points to.
    pub(crate) fn body(self, row: Row) -> &'a [u8]
        requires { row.place + row.len ≤ length self.bytes.now }
        ensures { result.now ≡ take row.len (drop row.place self.entry.bytes.now) }
    {
        &self.bytes[row.place..row.place + row.len]
    }
}
