// How wide the counts of record 17 are.
ghost use Rattle.std.specs.Prelude.{◌≡◌};
ghost use Rattle.docinfo.specs.Widths.{form_of};

// The width of a count.
#[derive(Clone, Copy)]
pub enum Width {
    Bits16,
    Bits32,
}

// What record 17 holds, by its length.
#[tactic(auto, unfolding(crate::specs::Widths::form_of))]
pub fn form_of(len: usize) -> Option<Width>
    ensures { result ≡ form_of len }
{
    match len {
        32 => Some(Width::Bits16),
        60.. if len % 4 == 0 => Some(Width::Bits32),
        _ => None,
    }
}
