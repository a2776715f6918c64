// The refusals of the calls.
// README's table says what each number means and which calls give it; the C header has the same names.
ghost use Rattle.std.specs.Prelude.{◌≡◌};
ghost use Rattle.loc_leaf.specs.Answers.{number_of};

#[derive(Clone, Copy, PartialEq, Eq)]
pub enum Refusal {
    AreaTooSmall,
    SlotsOdd,
    CheckpointsNotWhole,
    RowsNotWhole,
    RowsNotAscending,
    NotOpened,
    ListsDiffer,
    NoSpans,
    LengthNotPadded,
    TooManyStrides,
    BodyNotChained,
    SpansNotChained,
    PastArea,
    PastCount,
    TooManyNumbers,
    AnswersTooShort,
    RowMissing,
    ListingMalformed,
    ListingNumber,
    ListingSpanLen,
    AddressNotHeld,
    BodyEmpty,
    BodyNotAtEnd,
    SpansNotAtEnd,
    SeedZero,
    TooManyRecords,
    NotARecord,
    ComponentNotBelow,
    PairsNotAscending,
}

// A refusal's number; 0 is left for a call that is not refused.
impl From<Refusal> for u64 {
    fn from(r: Refusal) -> u64
        ensures { result ≡ number_of r }
    {
        match r {
            Refusal::AreaTooSmall => 1,
            Refusal::SlotsOdd => 2,
            Refusal::CheckpointsNotWhole => 3,
            Refusal::RowsNotWhole => 4,
            Refusal::RowsNotAscending => 5,
            Refusal::NotOpened => 6,
            Refusal::ListsDiffer => 7,
            Refusal::NoSpans => 8,
            Refusal::LengthNotPadded => 9,
            Refusal::TooManyStrides => 10,
            Refusal::BodyNotChained => 11,
            Refusal::SpansNotChained => 12,
            Refusal::PastArea => 13,
            Refusal::PastCount => 14,
            Refusal::TooManyNumbers => 15,
            Refusal::AnswersTooShort => 16,
            Refusal::RowMissing => 17,
            Refusal::ListingMalformed => 18,
            Refusal::ListingNumber => 19,
            Refusal::ListingSpanLen => 20,
            Refusal::AddressNotHeld => 21,
            Refusal::BodyEmpty => 22,
            Refusal::BodyNotAtEnd => 23,
            Refusal::SpansNotAtEnd => 24,
            Refusal::SeedZero => 25,
            Refusal::TooManyRecords => 26,
            Refusal::NotARecord => 27,
            Refusal::ComponentNotBelow => 28,
            Refusal::PairsNotAscending => 29,
        }
    }
}
