// The two passes of a read: what it answers, and the table.
ghost use Rattle.std.specs.Prelude.{◌≡◌, ◌≤◌, length, take};
ghost use Rattle.records.specs.Records.{limit};
ghost use Rattle.records.specs.Reading.{read_all};
ghost use Rattle.records.specs.Table.{read_answer, lists, room_in, fitting, entered, tabled};
ghost use Rattle.records.specs.Climbing.{Behind, ParentBehind};
ghost use Rattle.records.specs.Columns.{Same, lists_of};

use crate::fault::{Answer, Fault, Offset, refused};
use crate::parents::parent_at;
use crate::walk::records_of;

// A stream has at most this many bytes.
pub const LIMIT: usize = 16777216;

// The first pass: how many records the stream has, or what is wrong with it; where they are more than `room`, the first
// that does not fit.
pub fn scan(s: &[u8], room: usize) -> Answer
    ensures { result ≡ read_answer s.now room }
{
    if LIMIT < s.len() {
        return refused(Fault::StreamTooLong, Offset(0));
    }
    let mut n: usize = 0;
    let mut over = None;
    for item in records_of(s, Offset(0), 0) {
        let r = item?;
        if n == room {
            over = Some(r.at);
        }
        n += 1;
    }
    match over {
        None => Ok(n),
        Some(place) => refused(Fault::NoRoom, place),
    }
}

// The five lists of a table, an entry for each record: tag, level, body place, body length and the parent's index. C lends each by itself, so they
// are no list of rows.
#[derive(Drop)]
pub struct Columns<'a> {
    pub tags: &'a mut [u32],
    pub levels: &'a mut [u32],
    pub places: &'a mut [u32],
    pub lengths: &'a mut [u32],
    pub parents: &'a mut [u32],
}

impl<'a> Columns<'a> {
    // How many records have room in them.
    pub fn room(&self) -> usize
        ensures { result ≡ room_in (lists_of self.now) }
    {
        room(
            self.tags,
            self.levels,
            self.places,
            self.lengths,
            self.parents,
        )
    }

    // The index of the parent of a record at `level` that is to be entered at `index`.
    fn parent(&self, index: usize, level: u32) -> usize
        requires { Behind self.now.levels.now self.now.parents.now index }
        ensures { ParentBehind self.now.levels.now self.now.parents.now index level result }
    {
        parent_at(self.levels, self.parents, index, level)
    }
}

// How many records have room in five lists: as many as the shortest has entries. Columns has lists to write, pack's table lists to read, so it
// takes them one by one.
pub fn room(tags: &[u32], levels: &[u32], places: &[u32], lengths: &[u32], parents: &[u32]) -> usize
    ensures { result ≡ room_in (lists tags.now levels.now places.now lengths.now parents.now) }
{
    tags.len()
        .min(levels.len())
        .min(places.len())
        .min(lengths.len())
        .min(parents.len())
}

// The second pass: of a stream within the limit the records that have room.
fn enter_records(s: &[u8], columns: &mut Columns)
    requires { length s.now ≤ limit }
    ensures same { Same columns.old columns.new }
    ensures table { lists_of columns.new ≡ tabled (take (room_in (lists_of columns.old)) (read_all s.now).recs) (lists_of columns.old) }
{
    for (i, item) in (0..columns.room()).zip(records_of(s, Offset(0), 0)) {
        let Ok(r) = item else {
            return;
        };
        let parent = columns.parent(i, r.level);
        columns.tags[i] = r.tag;
        columns.levels[i] = r.level;
        columns.places[i] = r.body.0 as u32;
        columns.lengths[i] = r.len as u32;
        columns.parents[i] = parent as u32;
    }
}

// The table of a read that answers so, into the five lists. A refusal changes no entry; entries past the records stay.
#[tactic(auto, unfolding(crate::specs::Table::fitting, crate::specs::Table::places_from, crate::specs::Table::parents_from))]
pub fn enter(s: &[u8], answer: Answer, columns: &mut Columns)
    ensures same { Same columns.old columns.new }
    ensures table { lists_of columns.new ≡ tabled (entered answer (fitting s.now (room_in (lists_of columns.old)))) (lists_of columns.old) }
{
    if s.len() <= LIMIT && answer.is_ok() {
        enter_records(s, columns);
    }
}
