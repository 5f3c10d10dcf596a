//! Why a call may be refused, and how a transaction ended.
ghost use Rattle.std.specs.Prelude.{◌≡◌};
ghost use Rattle.store.specs.Tells.{refusal_number};

/// How a transaction ended.
#[derive(Clone, Copy, PartialEq, Eq, Debug)]
pub enum Ending {
    Committed,
    Aborted,
}

/// Why a call was refused; it changed nothing.
#[derive(Clone, Copy, PartialEq, Eq, Debug)]
pub enum Refusal {
    /// 1: the working table has fewer than 16 entries a process.
    ShortTable = 1,
    /// 2: the store has no such process.
    NoProcess = 2,
    /// 3: the process has a transaction open.
    AlreadyOpen = 3,
    /// 4: the process has no transaction open.
    NotOpen = 4,
    /// 5: an operation is under way.
    UnderWay = 5,
    /// 6: no operation is under way.
    NotUnderWay = 6,
    /// 7: another process remembers this one as the owner of a lock.
    Remembered = 7,
    /// 8: no begin is left.
    LifeUsed = 8,
    /// 9: the bank has no such item, or its number is above 63.
    NoItem = 9,
    /// 10: a new entry is needed, and its set is full.
    SetFull = 10,
    /// 11: the number of items, of processes or of begins is outside the limits.
    OutsideLimits = 11,
}

impl Refusal {
    /// The refusal's number.
    pub fn number(self) -> u8
        ensures { result ≡ refusal_number self }
    {
        self as u8
    }
}

impl From<Refusal> for u8 {
    ghost from_gives = { λ r n. n ≡ refusal_number r };

    fn from(refusal: Refusal) -> u8 {
        refusal.number()
    }
}
