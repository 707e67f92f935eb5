// The refusals of document 01, each named once, and what a call answers.
ghost use Rattle.std.specs.Prelude.{◌≡◌, ◌<◌, ℕ, Err};
ghost use Rattle.records.specs.Answers.{number_of, refusal, place_bits, host_form, number_by, place_by};

// A byte place in a stream, never added to a character position.
#[derive(Clone, Copy)]
pub struct Offset(pub usize);

// Why a call refuses, with document 01's number of each.
#[derive(Clone, Copy)]
pub enum Fault {
    StreamTooLong = 1,
    HeaderCut = 2,
    LongLengthTooSmall = 3,
    BodyPastEnd = 4,
    TagOutside = 5,
    LevelRule = 6,
    NoRoom = 7,
    ParagraphHeaderShort = 8,
    Misplaced = 9,
    RecordAbsent = 10,
    LengthWrong = 11,
    TextRule = 12,
    EntriesWrong = 13,
    ControlsUnmatched = 14,
    FieldHeaderShort = 15,
    DocInfoRecord = 16,
    DocInfoLength = 17,
    CountUnmatched = 18,
    ValueWrong = 20,
    NoField = 21,
    FieldTwice = 22,
    FieldNotPlain = 23,
    MarksInParagraph = 24,
    SheetTooLong = 25,
    BufferTooShort = 26,
    ListTooShort = 27,
    ParentWrong = 28,
}

// A fault, and the place that document 01 gives with it.
#[derive(Clone, Copy)]
pub struct Refusal {
    pub fault: Fault,
    pub place: Offset,
}

// What a call over one stream answers: how much it found or wrote, or the refusal.
pub type Answer = Result<usize, Refusal>;

impl Fault {
    // Document 01's number.
    pub fn number(self) -> u64
        ensures { (result ≡ number_of self) × (result < 256) }
    {
        self as u64
    }
}

// The refusal of a fault at a byte place, whatever would be found without it.
pub fn refused<T>(fault: Fault, place: Offset) -> Result<T, Refusal>
    ensures { result ≡ Err (refusal fault place.0) }
{
    Err(Refusal { fault, place })
}

// A place has 28 bits in the host's number. One that needs more is given as the largest, so that every number is taken; of a stream
// within the limit no place, count or length does.
pub fn bits(place: usize) -> u64
    ensures { (result ≡ place_bits place) × (result < 268435456) }
{
    place.min(268435455) as u64
}

// Why a call refuses, as the host is told it: document 01's number, and the place that goes with it.
pub trait Reason {
    ghost number_is: { Self → ℕ };

    ghost place_is: { Self → ℕ };

    fn number(&self) -> u64
        ensures { (result ≡ number_is self.now) × (result < 256) };

    fn place(&self) -> usize
        ensures { result ≡ place_is self.now };
}

impl Reason for Refusal {
    ghost number_is = { λ r. number_of r.fault };

    ghost place_is = { λ r. r.place.0 };

    fn number(&self) -> u64 {
        self.fault.number()
    }

    fn place(&self) -> usize {
        self.place.0
    }
}

// The host's form of an answer: the number, plus 256 times the place or what stands in its column for 0.
#[tactic(auto, unfolding(crate::specs::Answers::host_form))]
pub fn host<E: Reason + Drop>(answer: Result<usize, E>) -> u64
    ensures { result ≡ host_form (number_by E.number_is answer) (place_bits (place_by E.place_is answer)) 0 }
{
    match answer {
        Ok(n) => 256 * bits(n),
        Err(reason) => reason.number() + 256 * bits(reason.place()),
    }
}
