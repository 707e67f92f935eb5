// A record's parent, found by climbing the parents of the records before it: no list of levels is kept, and since what is climbed past is
// never climbed again, the whole is linear however deep the levels go.
ghost use Rattle.std.specs.Prelude.{take};
ghost use Rattle.records.specs.Climbing.{Behind, ParentBehind, RightParents};

use numbers::wide;

// The index of the parent of a record at `level` that stands at `index`: from the record before it upwards, the first of smaller level.
// Where there is none it is the record's own.
pub fn parent_at(levels: &[u32], parents: &[u32], index: usize, level: u32) -> usize
    requires { Behind levels.now parents.now index }
    ensures { ParentBehind levels.now parents.now index level result }
{
    if index == 0 {
        return 0;
    }
    let mut at = index - 1;
    // No `for`: it climbs by the entries.
    while level <= levels[at] {
        let up = wide(parents[at]);
        if up == at {
            return index;
        }
        at = up;
    }
    at
}

// How many of the first `count` records have their parent's index in the list of parents, before the first that has not.
pub fn right_parents(count: usize, levels: &[u32], parents: &[u32]) -> usize
    ensures { RightParents (take count levels.now) parents.now result }
{
    let n = count.min(levels.len().min(parents.len()));
    for i in 0..n {
        if wide(parents[i]) != parent_at(levels, parents, i, levels[i]) {
            return i;
        }
    }
    n
}
