// Judging a table before a byte of it is written.
ghost use Rattle.std.specs.Prelude.{◌≡◌, ◌+◌, ◌≤◌, ◌<◌, min};
ghost use Rattle.records.specs.Answers.{number_of};
ghost use Rattle.records.specs.Records.{lead_of};
ghost use Rattle.records.specs.Table.{room_in};
ghost use Rattle.pack.specs.Rows.{lists_of, rows_in};
ghost use Rattle.pack.specs.Packing.{refused_at, numbers_verdict, parent_verdict, body_verdict, verdict, closing, rows_answer, pack_answer};

use crate::put::lead;
use crate::table::{Row, Table};
use records::{Fault, LIMIT, Reason, right_parents};

// A record's index in the table.
#[derive(Clone, Copy)]
pub struct Index(pub usize);

// Why pack refuses: a fault, and the index of its record.
#[derive(Clone, Copy)]
pub struct RowRefusal {
    pub fault: Fault,
    pub index: Index,
}

impl Reason for RowRefusal {
    ghost number_is = { λ r. number_of r.fault };

    ghost place_is = { λ r. r.index.0 };

    fn number(&self) -> u64 {
        self.fault.number()
    }

    fn place(&self) -> usize {
        self.index.0
    }
}

// What pack answers: the length written, or a refusal.
pub type Packed = Result<usize, RowRefusal>;

// The refusal of a fault at the record with an index.
fn refused(fault: Fault, index: usize) -> Packed
    ensures { result ≡ refused_at fault index }
{
    Err(RowRefusal {
        fault,
        index: Index(index),
    })
}

// What one row's numbers say.
pub type Verdict = Result<(), Fault>;

// A tag and a level, which may be at most cap: 5, 6.
#[tactic(auto, unfolding(crate::specs::Packing::numbers_verdict))]
fn numbers(tag: u32, level: u32, cap: u32) -> Verdict
    ensures { result ≡ numbers_verdict cap tag level }
{
    if !(16..=1023).contains(&tag) {
        return Err(Fault::TagOutside);
    }
    if cap.min(1023) < level {
        return Err(Fault::LevelRule);
    }
    Ok(())
}

// A parent that is the right one or not: 28.
#[tactic(auto, unfolding(crate::specs::Packing::parent_verdict))]
fn parent(right: bool) -> Verdict
    ensures { result ≡ parent_verdict right }
{
    if right {
        Ok(())
    } else {
        Err(Fault::ParentWrong)
    }
}

// A body that ends so far into `lent` bytes: 4.
#[tactic(auto, unfolding(crate::specs::Packing::body_verdict))]
fn body(end: usize, lent: usize) -> Verdict
    ensures { result ≡ body_verdict lent end }
{
    if lent < end {
        Err(Fault::BodyPastEnd)
    } else {
        Ok(())
    }
}

// A row whose level may be at most cap, with the right parent or not, over `lent` bytes: 5, 6, 28, 4.
#[tactic(auto, unfolding(crate::specs::Packing::verdict))]
fn judge_row(row: Row, cap: u32, right: bool, lent: usize) -> Verdict
    requires { (row.place < 4294967296) × (row.len < 4294967296) }
    ensures { result ≡ verdict cap right lent row }
{
    numbers(row.tag, row.level, cap)?;
    parent(right)?;
    body(row.place + row.len, lent)
}

// A total with one more record; what is over the limit stays one over it, so that no sum of overlapping bodies wraps.
fn grown(total: usize, len: usize) -> usize
    requires { (total ≤ 16777217) × (len < 4294967296) }
    ensures { (result ≡ min 16777217 (total + (lead_of len + len))) × (result ≤ 16777217) }
{
    (total + lead(len) + len).min(16777217)
}

// A stream of `total` bytes into a buffer of `room`: 1, 26.
#[tactic(auto, unfolding(crate::specs::Packing::closing))]
fn close(total: usize, room: usize) -> Packed
    ensures { result ≡ closing room total }
{
    if LIMIT < total {
        return refused(Fault::StreamTooLong, 0);
    }
    if room < total {
        return refused(Fault::BufferTooShort, 0);
    }
    Ok(total)
}

// The rows of lists that are long enough: 5, 6, 28, 4 of each, then 1 and 26.
fn judge_rows(table: Table, room: usize) -> Packed
    requires { table.count ≤ room_in (lists_of table) }
    ensures { result ≡ rows_answer table.entry.bytes.now room (rows_in table.entry.count (lists_of table.entry)) table.entry.parents.now }
{
    let right = right_parents(table.count, table.levels, table.parents);
    let mut cap: u32 = 0;
    let mut total: usize = 0;
    for i in 0..table.count {
        let row = table.row(i);
        if let Err(fault) = judge_row(row, cap, i < right, table.bytes.len()) {
            return refused(fault, i);
        }
        cap = row.level + 1;
        total = grown(total, row.len);
    }
    close(total, room)
}

// What pack answers, before a byte is written: 27, then the rows.
pub fn judge(table: Table, room: usize) -> Packed
    ensures { result ≡ pack_answer table.entry.count (lists_of table.entry) table.entry.bytes.now room }
{
    if table.room() < table.count {
        return refused(Fault::ListTooShort, 0);
    }
    judge_rows(table, room)
}
