// The entries of character shapes and of marks.
#![tactic(auto)]

ghost use Rattle.std.specs.Prelude.{◌≡◌};
ghost use Rattle.entries.specs.Entries.{shapes_fault, marks_fault};

use numbers::little;

// The starts of character shapes, 8 bytes each.
#[tactic(auto, using(crate::proofs::EntryLaws::rising_start, crate::proofs::EntryLaws::rising_fits, crate::proofs::EntryLaws::rising_end))]
pub fn judge_shapes(b: &[u8], count: u32) -> Option<usize>
    ensures { result ≡ shapes_fault count b.now }
{
    let bound = count.max(1);
    // Where the next start may be: the first is 0.
    let mut starts = 0..1;
    for (i, entry) in b.chunks_exact(8).enumerate() {
        let start = little::<4>(entry);
        if !starts.contains(&start) {
            return Some(i);
        }
        starts = start + 1..bound;
    }
    None
}

// Marks, 12 bytes each.
#[tactic(auto, using(crate::proofs::EntryLaws::marking_start, crate::proofs::EntryLaws::marking_end))]
pub fn judge_marks(b: &[u8], count: u32) -> Option<usize>
    ensures { result ≡ marks_fault count b.now }
{
    for (i, entry) in b.chunks_exact(12).enumerate() {
        let start = little::<4>(entry);
        let end = little::<4>(&entry[4..]);
        if end < start || count < end {
            return Some(i);
        }
    }
    None
}
