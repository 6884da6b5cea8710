// Why a call is refused. A refused call answers one of these and alters nothing.
ghost use Rattle.std.specs.Prelude.{◌≡◌};
ghost use Rattle.rows.specs.Refusals.{number_of, refusal_no};

use thiserror::Error;

#[derive(Clone, Copy, Debug, PartialEq, Eq, Error)]
pub enum Refusal {
    #[error("the bytes end inside a count or section")]
    FileEnds = 1,
    #[error("bytes follow the last section")]
    BytesFollow = 2,
    #[error("a count is off its limits")]
    CountOffLimits = 3,
    #[error("a record names what is not there")]
    NotThere = 4,
    #[error("a weight is 0, or the weights of a change sum past 65535")]
    BadWeight = 5,
    #[error("an unknown kind or mark, a zero ceiling, or filler not 0")]
    BadField = 6,
    #[error("a handed table is smaller than its count")]
    TableTooSmall = 7,
    #[error("the run is not open")]
    RunNotOpen = 8,
    #[error("the change is not of this stage")]
    ChangeNotOfStage = 9,
    #[error("the wait leaves the hold interval or passes a ceiling")]
    WaitOutsideHold = 10,
    #[error("the guard does not allow the wait")]
    GuardForbidsWait = 11,
    #[error("a draw is due and none is to come")]
    NoDrawToCome = 12,
    #[error("the entry or rows do not fit the log")]
    LogFull = 13,
    #[error("a batch number is off its limits")]
    BatchOffLimits = 14,
}

impl Refusal {
    // The number that the rules give this refusal. A method and no From, so that a caller says that it wants the number.
    pub fn number(self) -> u8
        ensures value { result ≡ number_of self }
        ensures its_own_number { refusal_no result ≡ self }
    {
        self as u8
    }
}
