// A paragraph's text: what stands at each position, and whether the text keeps its rules.
#![tactic(auto)]

ghost use Rattle.std.specs.Prelude.{◌≡◌, ◌+◌, ◌-◌, ◌/◌, ◌≤◌, ◌<◌, length, get_or, drop};
ghost use Rattle.text.specs.Units.{units};
ghost use Rattle.text.specs.Asked.{class_of, what as begins, width};
ghost use Rattle.text.specs.Walk.{front_of, run};
ghost use Rattle.text.specs.Mirror.{four_ordinary};
ghost use Rattle.text.specs.Answers.{step_of, step_at, cursor};

use numbers::little;

// A position of the text, in units; it is never added to a byte offset.
#[derive(Clone, Copy)]
pub struct Position(pub usize);

// The classes of table 6.
#[derive(Clone, Copy)]
pub enum Class {
    Character,
    Inline,
    Extended,
}

// A control, with its class and code.
#[derive(Clone, Copy)]
pub struct Control {
    pub class: Class,
    pub code: u32,
}

// What stands at a position.
#[derive(Clone, Copy)]
pub enum Standing {
    Ordinary(u32),
    Control(Control),
}

// The walk at a position.
#[derive(Clone, Copy)]
pub struct Cursor {
    pub at: Position,
}

// What a step finds: where it stood, what stands there and the walk behind it; or the unit that breaks a rule; or the end. Three ways on, each with
// its name: an Option of a Result would have none.
#[derive(Clone, Copy)]
pub enum Step {
    Stands {
        at: Position,
        what: Standing,
        next: Cursor,
    },
    Broken(Position),
    End,
}

// A whole text: how many extended controls it has, or the unit that breaks a rule.
pub type Judged = Result<usize, Position>;

// The unit at a position, or 0 where there is none.
#[tactic(auto, using(crate::proofs::UnitLaws::unit_part, crate::proofs::UnitLaws::no_unit))]
fn unit(text: &[u8], at: Position) -> u32
    ensures { result ≡ get_or (units text.now) at.0 0 }
{
    if at.0 < text.len() / 2 {
        let from = 2 * at.0;
        little::<2>(&text[from..from + 2])
    } else {
        0
    }
}

// Table 6 by the code: every other unit below 32 takes one position.
#[tactic(auto, unfolding(crate::specs::Asked::class_of, crate::specs::Asked::among))]
fn class_of(code: u32) -> Class
    ensures { result ≡ class_of code }
{
    match code {
        1..=3 | 11 | 12 | 14..=18 | 21..=23 => Class::Extended,
        4..=9 | 19 | 20 => Class::Inline,
        _ => Class::Character,
    }
}

// What a unit begins.
#[tactic(auto, unfolding(crate::specs::Asked::what))]
fn begun(u: u32) -> Standing
    ensures { result ≡ begins u }
{
    if 32 <= u {
        return Standing::Ordinary(u);
    }
    Standing::Control(Control {
        class: class_of(u),
        code: u,
    })
}

// How many positions it takes.
fn positions(what: Standing) -> usize
    ensures { (result ≡ width what) × ((1 ≤ result) × (result ≤ 8)) }
{
    match what {
        Standing::Control(
            Control {
                class: Class::Inline | Class::Extended,
                ..
            },
        ) => 8,
        _ => 1,
    }
}

// The next four units are there and ordinary (document 01, 'Text units': units from 32 up).
#[tactic(auto, using(crate::proofs::UnitLaws::four_bytes, crate::proofs::UnitLaws::four_few))]
fn four_ordinary(text: &[u8], at: Position) -> bool
    requires { at.0 < length text.now / 2 }
    ensures { result ≡ four_ordinary (units text.now) at.0 }
{
    if text.len() / 2 < at.0 + 4 {
        return false;
    }
    let from = 2 * at.0;
    let four = &text[from..from + 8];
    32 <= little::<2>(four)
        && 32 <= little::<2>(&four[2..])
        && 32 <= little::<2>(&four[4..])
        && 32 <= little::<2>(&four[6..])
}

// The last of the n units that belong to the unit u, where a control has its own code again (document 01, 'Text units').
fn closing(text: &[u8], at: Position, u: u32, n: usize) -> u32
    requires { (u ≡ get_or (units text.now) at.0 0) × ((1 ≤ n) × (at.0 + n < 18446744073709551616)) }
    ensures { result ≡ get_or (units text.now) (at.0 + (n - 1)) 0 }
{
    if n == 1 {
        u
    } else {
        unit(text, Position(at.0 + (n - 1)))
    }
}

// The step at a unit u that begins `what`, with `left` units from it on, the last of them that belong to it being `last`, by the rules of
// document 01, 'Text units'.
#[tactic(auto, unfolding(crate::specs::Walk::front_of))]
fn settle(at: Position, u: u32, what: Standing, left: usize, last: u32) -> Step
    requires { (what ≡ begins u) × (at.0 + left < 18446744073709551616) }
    ensures { result ≡ step_of at.0 (front_of (record { unit = u; left = left; last = last })) }
{
    let n = positions(what);
    if u == 0 || left < n {
        return Step::Broken(at);
    }
    if last != u {
        return Step::Broken(Position(at.0 + (n - 1)));
    }
    let behind = Position(at.0 + n);
    if left == n && u != 13 {
        return Step::Broken(behind);
    }
    if left != n && u == 13 {
        return Step::Broken(at);
    }
    Step::Stands {
        at,
        what,
        next: Cursor { at: behind },
    }
}

impl Cursor {
    // The walk at the next unit below 32, or at the end (document 01, 'Filling a field'): most units are ordinary.
    #[tactic(auto, using(crate::proofs::RunLaws::run_steps))]
    pub fn past_ordinary(self, text: &[u8]) -> Cursor
        ensures { result ≡ cursor (self.at.0 + run (drop self.at.0 (units text.now))) }
    {
        let mut p = self.at.0;
        // No `for`: it goes on by four or by one.
        while p < text.len() / 2 {
            if four_ordinary(text, Position(p)) {
                p += 4;
            } else if unit(text, Position(p)) < 32 {
                break;
            } else {
                p += 1;
            }
        }
        Cursor { at: Position(p) }
    }

    // What stands at the cursor, and the cursor behind it (document 01, 'Text units': each step reports).
    #[tactic(auto, using(crate::proofs::StepLaws::step_exits))]
    pub fn step(self, text: &[u8]) -> Step
        ensures { result ≡ step_at (units text.now) self.at.0 }
    {
        let at = self.at;
        let n = text.len() / 2;
        if n <= at.0 {
            return Step::End;
        }
        let u = unit(text, at);
        let what = begun(u);
        let last = closing(text, at, u, positions(what));
        settle(at, u, what, n - at.0, last)
    }
}
