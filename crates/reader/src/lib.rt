// The text walk: a paragraph's bytes and the present position together (document 01, 'Text units').
// Each method of the walk is thin: it leaves the work to the cursor beneath it.
#![tactic(auto)]

ghost use Rattle.std.specs.Prelude.{◌≡◌};
ghost use Rattle.text.specs.Units.{units};
ghost use Rattle.text.specs.Walk.{is_extended};
ghost use Rattle.text.specs.Answers.{control_at, judged};
ghost use Rattle.reader.specs.Reading.{reader, ahead, standing};

use text::{Class, Control, Cursor, Judged, Position, Standing, Step};

// The walk at a position of a text.
#[derive(Clone, Copy)]
pub struct Reader<'a> {
    pub text: &'a [u8],
    pub at: Position,
}

impl<'a> Reader<'a> {
    // The walk from a position on.
    pub fn walk_from(text: &'a [u8], at: Position) -> Reader<'a>
        ensures { result ≡ reader text.entry at }
    {
        Reader { text, at }
    }

    // The walk at the next unit below 32, or at the end (document 01, 'Filling a field').
    pub fn past_ordinary(self) -> Reader<'a>
        ensures { result ≡ ahead self.entry }
    {
        let control = Cursor { at: self.at }.past_ordinary(self.text);
        Reader {
            at: control.at,
            ..self
        }
    }

    // What stands where the walk stands (document 01, 'Text units': each step reports).
    pub fn stands(self) -> Step
        ensures { result ≡ standing self.entry }
    {
        Cursor { at: self.at }.step(self.text)
    }
}

// What stands at the next unit below 32, for callers that have no walk: the contract is on the slice and the position alone
// (document 01, 'Filling a field').
#[tactic(auto, unfolding(text::specs::Answers::control_at))]
pub fn next_control(text: &[u8], from: Position) -> Step
    ensures { result ≡ control_at (units text.now) from.0 }
{
    Reader::walk_from(text, from).past_ordinary().stands()
}

// 1 of an extended control, which owns a control header (document 01, 'Paragraphs'), else 0.
fn extended(what: Standing) -> usize
    ensures { result ≡ is_extended what }
{
    usize::from(matches!(
        what,
        Standing::Control(Control {
            class: Class::Extended,
            ..
        })
    ))
}

// Judges a whole text by document 01, 'Text units'; one without a unit, or with ordinary units at its end, lacks its 13.
#[tactic(auto, using(crate::proofs::JudgeLaws::met_ways, crate::proofs::JudgeLaws::judge_steps))]
pub fn judge(text: &[u8]) -> Judged
    ensures { result ≡ judged (units text.now) }
{
    let n = text.len() / 2;
    if n == 0 {
        return Err(Position(0));
    }
    let mut at = Position(0);
    let mut count = 0;
    // No `for`: the walk is a cursor by value (document 01's form).
    while at.0 < n {
        match next_control(text, at) {
            Step::Stands { what, next, .. } => {
                count += extended(what);
                at = next.at;
            }
            Step::Broken(p) => return Err(p),
            Step::End => return Err(Position(n)),
        }
    }
    Ok(count)
}
