//! What is printed of a line.
ghost use Rattle.std.specs.Prelude.{◌≡◌, ℕ, Some};
ghost use Rattle.bench.specs.Texts.{report_text, word_text};

use crate::fault::Fault;
use kinds::{Kind, Setting};
use std::fmt;
use store::Answer;

/// A line that was played: its number from 1, and what it was answered, with values as words.
#[derive(Clone, Copy, PartialEq, Eq, Debug)]
pub struct Report {
    pub line: usize,
    pub result: Result<Answer<u64>, Fault>,
}

/// A value by its word: a setting that is a count, or off.
#[derive(Clone, Copy, PartialEq, Eq, Debug)]
pub struct Shown(pub u64);

impl fmt::Display for Shown {
    ghost output = { λ x. Some (word_text x.0) };

    fn fmt<W: fmt::Write>(&self, f: &mut fmt::Formatter<W>) -> fmt::Result {
        match Setting::unpack(self.0) {
            Setting::Count(n) => write!(f, "{n}"),
            _ => f.write_str("off"),
        }
    }
}

impl fmt::Display for Report {
    ghost output = { λ x. Some (report_text x) };

    fn fmt<W: fmt::Write>(&self, f: &mut fmt::Formatter<W>) -> fmt::Result {
        let line = self.line;
        match self.result {
            Ok(Answer::Done) => write!(f, "{line} ok"),
            Ok(Answer::Going) => write!(f, "{line} going"),
            Ok(Answer::Waiting) => write!(f, "{line} waiting"),
            Ok(Answer::Value(word)) => write!(f, "{line} value {}", Shown(word)),
            Ok(Answer::Committed) => write!(f, "{line} committed"),
            Ok(Answer::Aborted(None)) => write!(f, "{line} aborted"),
            Ok(Answer::Aborted(Some(item))) => write!(f, "{line} aborted {item}"),
            Err(fault) => write!(f, "{line} {fault}"),
        }
    }
}
