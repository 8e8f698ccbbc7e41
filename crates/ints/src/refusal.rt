// Why a call is refused: document 01's refusal numbers, and what a refusal carries.
ghost use Rattle.std.specs.Prelude.{◌≡◌};
ghost use Rattle.ints.specs.Refusals.{number};

// A refusal. Each has the number that document 01 gives it.
#[derive(Clone, Copy, Debug, PartialEq, Eq)]
pub enum Refusal {
    XOver15 = 1,
    OOver15 = 2,
    XBarNegative = 3,
    OBarPositive = 4,
    Finished = 5,
    EmptyBoard = 6,
    DieOutside1To6 = 7,
    FromAbove25 = 8,
    StepNotLegal = 9,
    ListTooShort = 10,
    NoSuchEnd = 11,
    NotAnEnd = 12,
    InputsNotExact = 13,
    NoSuchInput = 14,
    KeyOOver15 = 15,
    KeyXOver15 = 16,
    KeySharedPoint = 17,
    KeyBitAfterEnd = 18,
    CardTooShort = 19,
    StartTooShort = 20,
    StartMark = 21,
    TurnLimit = 22,
    TurnTooShort = 23,
    TurnMark = 24,
    TurnAfterFinish = 25,
    NoSuchRoll = 26,
    RowTooShort = 27,
    NoSuchPosition = 36,
}

impl Refusal {
    // The number of the refusal.
    pub fn number(self) -> u8
        ensures { result ≡ number self }
    {
        self as u8
    }
}

// A refusal and the number that it carries: that of the ends for a list that is too short, the byte where the refused record begins for
// a card, and else 0.
#[derive(Clone, Copy, Debug, PartialEq, Eq)]
pub struct Refused {
    pub why: Refusal,
    pub carried: usize,
}

impl From<Refusal> for Refused {
    ghost from_gives = { λ why refused. refused ≡ record { why = why; carried = 0 } };

    fn from(why: Refusal) -> Refused {
        Refused { why, carried: 0 }
    }
}
