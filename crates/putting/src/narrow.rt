// Bytes that are counted in 32 bits.
ghost use Rattle.std.specs.Prelude.{◌≡◌, ◌<◌, length, MatchOption};
ghost use Rattle.numbers.specs.Little.{Bytes};
ghost use Rattle.putting.specs.Putting.{Narrow};

// Bytes whose length has 32 bits.
#[derive(Clone, Copy)]
pub struct NarrowBytes<'a> {
    pub bytes: &'a [u8],
    pub ghost narrow: { Narrow bytes.now },
    pub ghost each: { Bytes bytes.now },
}

impl<'a> NarrowBytes<'a> {
    // The bytes, unless they are more.
    pub fn of(bytes: &'a [u8]) -> Option<NarrowBytes<'a>>
        ensures { MatchOption result (4294967295 < length bytes.now) (λ n. n.bytes.now ≡ bytes.now) }
    {
        if 4294967295 < bytes.len() {
            return None;
        }
        Some(NarrowBytes { bytes })
    }
}
