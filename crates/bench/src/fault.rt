//! Why a line of a script was refused.
ghost use Rattle.std.specs.Prelude.{◌≡◌, Some};
ghost use Rattle.bench.specs.Faults.{cause_number, fault_text, store_fault, on_line};

use std::error::Error;
use std::fmt;
use store::Refusal;

/// Why a line was refused: it is no call line, or the store refused its call.
#[derive(Clone, Copy, PartialEq, Eq, Debug)]
pub enum Cause {
    NotACall,
    Store(Refusal),
}

/// A refused line: its number from 1, and why.
#[derive(Clone, Copy, PartialEq, Eq, Debug)]
pub struct Fault {
    pub line: usize,
    pub cause: Cause,
}

/// A refusal of the store at a line.
#[derive(Clone, Copy, PartialEq, Eq, Debug)]
pub struct AtLine {
    pub line: usize,
    pub refusal: Refusal,
}

impl Cause {
    // a number, since that is what is printed
    /// The number of the refusal: 12 for what is no call line, else the store's.
    pub fn number(self) -> u8
        ensures { result ≡ cause_number self }
    {
        match self {
            Cause::NotACall => 12,
            Cause::Store(refusal) => u8::from(refusal),
        }
    }
}

impl fmt::Display for Fault {
    ghost output = { λ x. Some (fault_text x) };

    fn fmt<W: fmt::Write>(&self, f: &mut fmt::Formatter<W>) -> fmt::Result {
        write!(f, "refused {}", self.cause.number())
    }
}

impl Error for Fault {}

// The store's refusal goes into the fault unchanged.
impl From<AtLine> for Fault {
    ghost from_gives = { λ a f. f ≡ store_fault a };

    fn from(at: AtLine) -> Fault {
        Fault {
            line: at.line,
            cause: Cause::Store(at.refusal),
        }
    }
}

/// The store's result, with the line's number at a refusal.
pub fn at_line<T>(line: usize, res: Result<T, Refusal>) -> Result<T, AtLine>
    ensures { result ≡ on_line line res }
{
    res.map_err(|refusal| AtLine { line, refusal })
}
