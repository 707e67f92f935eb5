// A text that is sound from a position on.
ghost use Rattle.std.specs.Prelude.{◌≡◌, None};
ghost use Rattle.std.proofs.Props.{props};
ghost use Rattle.text.specs.Units.{units};
ghost use Rattle.text.specs.Walk.{fault_at};

use text::Position;

// A text, and a position from where on it is sound.
#[derive(Clone, Copy)]
pub struct SoundFrom<'a> {
    pub text: &'a [u8],
    pub at: Position,
    pub ghost sound: { fault_at (units text.now) at.0 ≡ None } by { Prim.hlevel props },
}

impl<'a> SoundFrom<'a> {
    // The text from where the walk stands.
    pub fn new(text: &'a [u8], at: Position) -> Self
        requires { fault_at (units text.now) at.0 ≡ None }
        ensures { (result.text.now ≡ text.now) × (result.at ≡ at) }
    {
        SoundFrom { text, at }
    }
}
