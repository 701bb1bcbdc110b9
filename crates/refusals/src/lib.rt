// Why a call is refused, by the names of the C header, and the number that tells it there.
#![tactic(auto)]

ghost use Rattle.std.specs.Prelude.{◌≡◌};
ghost use Rattle.refusals.specs.Refusals.{number_of};

// In the order of their numbers. 14 is retired: no call gives it, and it is given to nothing else.
#[derive(Clone, Copy, PartialEq, Eq)]
pub enum Refusal {
    ModelCut,
    ModelLeftOver,
    CountLimit,
    BadComponent,
    PhaseSum,
    BadPhase,
    BadRule,
    BadCoupling,
    TooManyRoutes,
    RunDoesNotFit,
    BadMoment,
    BadBag,
    StillDue,
    BufferTooShort,
    BadPosition,
    NotATrace,
    NotColumns,
    BadFeed,
    BadFifthSection,
    BadChannels,
    OutOfSteps,
}

impl From<Refusal> for u64 {
    ghost from_gives = { λ refusal number. number ≡ number_of refusal };

    fn from(refusal: Refusal) -> u64 {
        match refusal {
            Refusal::ModelCut => 1,
            Refusal::ModelLeftOver => 2,
            Refusal::CountLimit => 3,
            Refusal::BadComponent => 4,
            Refusal::PhaseSum => 5,
            Refusal::BadPhase => 6,
            Refusal::BadRule => 7,
            Refusal::BadCoupling => 8,
            Refusal::TooManyRoutes => 9,
            Refusal::RunDoesNotFit => 10,
            Refusal::BadMoment => 11,
            Refusal::BadBag => 12,
            Refusal::StillDue => 13,
            Refusal::BufferTooShort => 15,
            Refusal::BadPosition => 16,
            Refusal::NotATrace => 17,
            Refusal::NotColumns => 18,
            Refusal::BadFeed => 19,
            Refusal::BadFifthSection => 20,
            Refusal::BadChannels => 21,
            Refusal::OutOfSteps => 22,
        }
    }
}
