// Packing: judge the whole table first, then lay its records one behind the other.
ghost use Rattle.std.specs.Prelude.{◌≡◌, ◌≤◌, length};
ghost use Rattle.records.specs.Records.{encode};
ghost use Rattle.records.specs.Table.{shortest, written};
ghost use Rattle.pack.specs.Rows.{lists_of, rows_in, records, Inside};
ghost use Rattle.pack.specs.Promise.{Packs};

use crate::judge::{Packed, judge};
use crate::put::put_record;
use crate::table::Table;

// The second pass: the records of a table that was judged sound.
fn lay(table: Table, out: &mut [u8])
    requires count_bound { table.count ≤ shortest table.tags.now table.levels.now table.places.now table.lengths.now }
    requires inside { Inside (length table.bytes.now) (rows_in table.count (lists_of table)) }
    requires lengths_in_bounds { length (encode (records table.bytes.now (rows_in table.count (lists_of table)))) ≤ length out.old }
    ensures { out.new ≡ written (encode (records table.entry.bytes.now (rows_in table.entry.count (lists_of table.entry)))) out.old }
{
    let mut at: usize = 0;
    for i in 0..table.count {
        let row = table.row(i);
        at += put_record(&mut out[at..], row.tag, row.level, table.body(row));
    }
}

// Packs the rows of a table into `out`. A refusal changes nothing; what stands behind the stream stays.
pub fn pack(table: Table, out: &mut [u8]) -> Packed
    ensures { Packs table.entry.count (lists_of table.entry) table.entry.bytes.now out.old result out.new }
{
    let n = judge(table, out.len())?;
    lay(table, out);
    Ok(n)
}
