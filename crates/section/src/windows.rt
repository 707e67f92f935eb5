// Windows of levels, over which rule 9 and the paragraphs are passed.
ghost use Rattle.std.specs.Prelude.{◌≡◌, ℕ};
ghost use Rattle.section.specs.Windows.{between, index_of, sooner};

use numbers::wide;
use records::Offset;

// A level is from lo up to and not including hi.
pub fn inside(lo: u32, hi: u32, level: u32) -> bool
    ensures { result ≡ between lo hi level }
{
    (lo..hi).contains(&level)
}

// Where a level stands among the N levels from lo on, if it is one of them.
pub fn index_of<const N: u32>(lo: u32, level: u32) -> Option<usize>
    ensures { result ≡ index_of N lo level }
{
    let i = level.checked_sub(lo)?;
    if i < N { Some(wide(i)) } else { None }
}

// What stands somewhere in the stream.
pub trait Placed {
    ghost place_is: { Self → ℕ };

    fn place(&self) -> usize
        ensures { result ≡ place_is self.now };
}

impl Placed for Offset {
    ghost place_is = { λ p. p.0 };

    fn place(&self) -> usize {
        self.0
    }
}

// Of what two windows find the one that stands first.
pub fn sooner<T: Placed + Copy>(a: Option<T>, b: Option<T>) -> Option<T>
    ensures { result ≡ sooner T.place_is a b }
{
    match (a, b) {
        (Some(x), Some(y)) => Some(if x.place() < y.place() { x } else { y }),
        _ => a.or(b),
    }
}
