// Why a file or a call is refused, and the checks that calls share.
#![tactic(auto)]

ghost use Rattle.std.specs.Prelude.{◌≡◌, ◌&&◌, leb, ltb};
ghost use Rattle.checks.specs.declared.Refusal.TheVariants.{Number, Room};
ghost use Rattle.checks.specs.Answers.{refusal_number, checked_of, number_of};

// Why a call refuses, in the order in which the checks are made. What is printed, and what an export returns, is its number.
#[derive(Clone, Copy, Debug, PartialEq, Eq)]
pub enum Refusal {
    NoHeader = 1,
    WrongEdition,
    ZeroCount,
    WrongLength,
    SetMoves,
    NodeForm,
    PayloadRange,
    Attachment,
    MissingMove,
    ChanceWeights,
    PathLength,
    EmptySet,
    Recall,
    PlanLength,
    PlanForm,
    PlanUnfit,
    Number,
    Room,
    SheetForm,
    NoOdds,
    NoDenominator,
}

impl Refusal {
    // Its number, from 1 on.
    pub fn number(self) -> u64
        ensures { result ≡ refusal_number self }
    {
        self as u64
    }
}

// The check that refuses so, by its test: with a `Refusal`, as every call here does, or with whatever else says why, as a number.
pub fn check<E: Drop>(refusal: E, holds: bool) -> Result<(), E>
    ensures { result ≡ checked_of refusal holds }
{
    if holds { Ok(()) } else { Err(refusal) }
}

// Of a look-up: whether a number asked for is one of `count`.
pub fn in_game(number: u64, count: u64) -> Result<(), Refusal>
    ensures { result ≡ checked_of Number (ltb number count) }
{
    check(Refusal::Number, number < count)
}

// Whether a buffer of `room` entries holds a result of `size`.
pub fn has_room(size: usize, room: usize) -> Result<(), Refusal>
    ensures { result ≡ checked_of Room (leb size room) }
{
    check(Refusal::Room, size <= room)
}

// Of several buffers: whether a result of `size` entries fits a buffer of `room`, and the later ones fit theirs.
pub fn room_and(size: usize, room: usize, later: bool) -> bool
    ensures { result ≡ (leb size room && later) }
{
    size <= room && later
}

// The number of an answer's refusal, or 0.
pub fn number<T: Drop>(answer: Result<T, Refusal>) -> u64
    ensures { result ≡ number_of answer }
{
    match answer {
        Ok(_) => 0,
        Err(refusal) => refusal.number(),
    }
}
