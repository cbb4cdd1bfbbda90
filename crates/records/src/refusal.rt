// Why a file, a proposal, a feed or a step is refused: document 01's table of numbers.
ghost use Rattle.std.specs.Prelude.{◌≡◌};
ghost use Rattle.records.specs.Refusals.{number_of, number};

// 16 was a number once, and isn't used again.
#[derive(Clone, Copy, PartialEq, Eq)]
pub enum Refusal {
    EmptyFile = 1,
    CutShort = 2,
    UnknownKind = 3,
    WrongLength = 4,
    NotAnEarlierRecord = 5,
    SameAsEarlierRecord = 6,
    TooManyRecords = 7,
    RuleTooLarge = 8,
    NoRoom = 9,
    NoticesDiffer = 10,
    StatusesDiffer = 11,
    RemainderNotInFile = 12,
    RemaindersNotListed = 13,
    PairNamesNoRecord = 14,
    NoRuleOpen = 15,
    InputTooLong = 17,
}

// Its number.
impl From<Refusal> for u8 {
    fn from(refusal: Refusal) -> u8
        ensures { result ≡ number_of refusal }
    {
        refusal as u8 // its number as declared
    }
}

// The number of what a call comes to: 0 where it is accepted. A function, as neither type is this crate's to have a `From`.
pub fn number(outcome: Result<(), Refusal>) -> u8
    ensures { result ≡ number outcome }
{
    match outcome {
        Ok(()) => 0,
        Err(refusal) => u8::from(refusal),
    }
}
