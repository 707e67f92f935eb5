// What filling a field does to a paragraph's numbers, and what its calls answer (document 01, 'Filling a field').
#![tactic(auto)]

ghost use Rattle.std.specs.Prelude.{◌≡◌};
ghost use Rattle.filling.specs.Filling.{with_bit15};

use records::{Offset, Refusal};

// Bytes of a stream: where they begin, and how many they are.
#[derive(Clone, Copy)]
pub struct Span {
    pub place: Offset,
    pub len: usize,
}

// What field text answers: where the value stands, or the refusal.
pub type TextAnswer = Result<Span, Refusal>;

// Properties with bit 15 set: contents altered.
#[tactic(auto, using(crate::proofs::AnswerLaws::bit_put))]
pub fn with_bit_15(properties: u32) -> u32
    ensures { result ≡ with_bit15 properties }
{
    properties | 0x8000
}
