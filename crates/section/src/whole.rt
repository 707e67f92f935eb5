// A stream that read accepts, as the passes behind the first take it.
ghost use Rattle.std.specs.Prelude.{◌≡◌, ◌≤◌, ◌<◌, length, None};
ghost use Rattle.std.proofs.Props.{props};
ghost use Rattle.numbers.specs.Little.{Bytes};
ghost use Rattle.records.specs.Records.{limit};
ghost use Rattle.records.specs.Reading.{read_all};
ghost use Rattle.section.specs.Windows.{deepest_from};

// A stream whose reading has ended well, and the deepest level of its records.
#[derive(Clone, Copy)]
pub struct Whole<'a> {
    pub stream: &'a [u8],
    pub deepest: u32,
    ghost bytes: { Bytes stream.now },
    ghost small: { length stream.now ≤ limit },
    ghost ends: { (read_all stream.now).stop ≡ None } by { Prim.hlevel props },
    ghost depth: { deepest ≡ deepest_from 0 (read_all stream.now).recs },
    ghost low: { deepest < 1024 },
}
