// The counts of record 17, and what they are matched with.
ghost use Rattle.std.specs.Prelude.{◌≡◌, ◌+◌, ◌≤◌, ◌<◌, drop};
ghost use Rattle.records.specs.Parents.{children};
ghost use Rattle.records.specs.Reading.{read_from};
ghost use Rattle.docinfo.specs.Counts.{count_at, negative_from, sum_from, groups, matched, unmatched, count_fault};

use crate::children::count_children;
use numbers::{little_at, wide};
use records::Offset;

// Counts that sum to the number of children with a tag.
#[derive(Clone, Copy)]
pub struct Group {
    pub first: usize,
    pub many: usize,
    pub tag: u32,
}

const GROUPS: [Group; 10] = [
    Group {
        first: 0,
        many: 1,
        tag: 18,
    },
    Group {
        first: 1,
        many: 7,
        tag: 19,
    },
    Group {
        first: 8,
        many: 1,
        tag: 20,
    },
    Group {
        first: 9,
        many: 1,
        tag: 21,
    },
    Group {
        first: 10,
        many: 1,
        tag: 22,
    },
    Group {
        first: 11,
        many: 1,
        tag: 23,
    },
    Group {
        first: 12,
        many: 1,
        tag: 24,
    },
    Group {
        first: 13,
        many: 1,
        tag: 25,
    },
    Group {
        first: 14,
        many: 1,
        tag: 26,
    },
    Group {
        first: 15,
        many: 1,
        tag: 92,
    },
];

// The bits of count i, each of N bytes, as far as the body has them.
#[tactic(auto, unfolding(crate::specs::Counts::count_at))]
fn count_at<const N: usize>(body: &[u8], i: usize) -> usize
    requires { (N ≤ 4) × (i < 16) }
    ensures { (result ≡ count_at N body.now i) × (result < 4294967296) }
{
    wide(little_at::<N>(body, N * i))
}

// The first count that is negative.
fn first_negative<const N: usize>(body: &[u8]) -> Option<usize>
    requires { N ≤ 4 }
    ensures { result ≡ negative_from N body.now 0 16 }
{
    for i in 0..16 {
        if 256usize.pow(N as u32) <= 2 * count_at::<N>(body, i) {
            return Some(i);
        }
    }
    None
}

// The sum of a group's counts.
fn sum_counts<const N: usize>(body: &[u8], g: Group) -> usize
    requires { (N ≤ 4) × (g.first + g.many ≤ 16) }
    ensures { result ≡ sum_from N body.now g.first g.many }
{
    let mut sum: usize = 0;
    for i in g.first..g.first + g.many {
        sum += count_at::<N>(body, i);
    }
    sum
}

// Whether a group's counts, where all of them are there, sum to the number of children with its tag among the records from `behind` on.
#[tactic(auto, unfolding(crate::specs::Counts::matched))]
fn is_matched<const N: usize>(s: &[u8], body: &[u8], behind: Offset, g: Group) -> bool
    requires { (N ≤ 4) × (g.first + g.many ≤ 16) }
    ensures { result ≡ matched N body.now (children 1 (read_from 1 0 (drop behind.0 s.now)).recs) g }
{
    body.len() < N * (g.first + g.many)
        || sum_counts::<N>(body, g) == count_children(s, behind, 1, g.tag)
}

// The first count of the first group that is not matched by the children among the records from `behind` on.
fn first_unmatched<const N: usize>(s: &[u8], body: &[u8], behind: Offset) -> Option<usize>
    requires { N ≤ 4 }
    ensures { result ≡ unmatched N body.now (children 1 (read_from 1 0 (drop behind.0 s.now)).recs) groups }
{
    for g in GROUPS {
        if !is_matched::<N>(s, body, behind, g) {
            return Some(g.first);
        }
    }
    None
}

// The count of record 17 that is at fault: the first that is negative, else the first in a group that is not matched.
#[tactic(auto, unfolding(crate::specs::Counts::count_fault, crate::specs::Counts::or_else))]
pub fn judge_counts<const N: usize>(s: &[u8], body: &[u8], behind: Offset) -> Option<usize>
    requires { N ≤ 4 }
    ensures { result ≡ count_fault N body.now (children 1 (read_from 1 0 (drop behind.0 s.now)).recs) }
{
    match first_negative::<N>(body) {
        Some(i) => Some(i),
        None => first_unmatched::<N>(s, body, behind),
    }
}
