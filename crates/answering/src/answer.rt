ghost use Rattle.std.specs.Prelude.{Some};
ghost use Rattle.answering.specs.Printed.{answer_text};

use ancestry::Refusal;
use history::Entry;
use std::fmt;

/// What an order is answered by.
#[derive(Clone, Copy, PartialEq, Eq, Debug)]
pub enum Answer {
    /// The place at which the commit is taken in, or why it is not.
    Intake(Result<usize, Refusal>),
    /// The place of a commit or of a parent, if there is one.
    Place(Option<usize>),
    /// A number of commits.
    Number(usize),
    /// What is told of a commit, if there is one.
    Commit(Option<Entry>),
    /// The name is kept.
    Kept,
    /// The question is not answered yet.
    NotYet,
}

impl fmt::Display for Answer {
    ghost output = { λ a. Some (answer_text a) };

    fn fmt<W: fmt::Write>(&self, f: &mut fmt::Formatter<W>) -> fmt::Result {
        match self {
            Answer::Intake(Ok(place)) | Answer::Place(Some(place)) => write!(f, "place {place}"),
            Answer::Intake(Err(refusal)) => write!(f, "{refusal}"),
            Answer::Number(number) => write!(f, "{number}"),
            Answer::Commit(Some(entry)) => write!(f, "{entry}"),
            Answer::Place(None) | Answer::Commit(None) => f.write_str("none"),
            Answer::Kept => f.write_str("kept"),
            Answer::NotYet => f.write_str("not yet"),
        }
    }
}
