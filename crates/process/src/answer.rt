//! What an accepted call answers.
ghost use Rattle.process.specs.Answers.{WithValue, AtValue};

/// The answer to an accepted call.
#[derive(Clone, Copy, PartialEq, Eq, Debug)]
pub enum Answer<V> {
    /// The call is done.
    Done,
    /// An operation is under way.
    Going,
    /// An operation is under way, and this step did not get on.
    Waiting,
    /// A read ended with this value.
    Value(V),
    /// The transaction ended, and counts.
    Committed,
    /// The transaction ended without effect: by choice, or because of a commit that wrote this item.
    Aborted(Option<u8>),
}

impl<V> Answer<V> {
    /// The answer with its value changed by `f`.
    pub fn map<W, F: FnOnce(V) -> W>(self, f: F) -> Answer<W>
        requires { AtValue self (F.pre f) }
        ensures { WithValue (F.post f) self result }
    {
        match self {
            Answer::Done => Answer::Done,
            Answer::Going => Answer::Going,
            Answer::Waiting => Answer::Waiting,
            Answer::Value(value) => Answer::Value(f(value)),
            Answer::Committed => Answer::Committed,
            Answer::Aborted(cause) => Answer::Aborted(cause),
        }
    }
}
