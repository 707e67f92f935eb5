// How the records behind a paragraph header stand to it.
ghost use Rattle.std.specs.Prelude.{◌≡◌};
ghost use Rattle.paragraph.specs.View.{side, owned_if};

use records::Kind;

// How a record stands to a parent: three ways on.
#[derive(Clone, Copy)]
pub enum Side {
    // Behind the last record below the parent.
    Beyond,
    // A direct child with a tag from 67 to 71.
    Owned,
    // Something else below the parent.
    Passed,
}

impl Side {
    // An owned child stays one where the test holds, and is passed else. Each way on has its own arm: with one for the rest the search for a child
    // takes half as long again.
    pub fn owned_if(self, keeps: bool) -> Side
        ensures { result ≡ owned_if keeps self }
    {
        match self {
            Side::Owned if !keeps => Side::Passed,
            Side::Owned => Side::Owned,
            Side::Beyond => Side::Beyond,
            Side::Passed => Side::Passed,
        }
    }
}

// How a record stands to a parent whose children are at level n.
#[tactic(auto, unfolding(crate::specs::View::side))]
pub fn stands_to(n: u32, tag: u32, level: u32) -> Side
    ensures { result ≡ side n tag level }
{
    if level < n {
        Side::Beyond
    } else if level == n && (Kind::TEXT..=Kind::CONTROL_HEADER).contains(&tag) {
        Side::Owned
    } else {
        Side::Passed
    }
}
