ghost use Rattle.std.specs.Prelude.{◌≡◌, Some};
ghost use Rattle.bundle.specs.Runs.{counted};
ghost use Rattle.bundle.specs.Printed.{tally_text};

use crate::reply::Reply;
use answering::Answer;
use std::fmt;

/// How many lines of each kind a bundle had.
#[derive(Clone, Copy, PartialEq, Eq, Default, Debug)]
pub struct Tally {
    /// Commits taken in.
    pub taken_in: usize,
    /// Commits refused.
    pub refused: usize,
    /// Other lines that are well-formed.
    pub answered: usize,
    /// Lines that are malformed.
    pub malformed: usize,
}

impl Tally {
    /// Counts one more line by its reply.
    pub(crate) fn count(&mut self, reply: &Reply)
        ensures { self.new ≡ counted reply.now self.old }
    {
        match reply {
            Ok(Answer::Intake(Ok(_))) => self.taken_in = self.taken_in.saturating_add(1),
            Ok(Answer::Intake(Err(_))) => self.refused = self.refused.saturating_add(1),
            Ok(_) => self.answered = self.answered.saturating_add(1),
            Err(_) => self.malformed = self.malformed.saturating_add(1),
        }
    }
}

/// The last line of the replies to a bundle.
impl fmt::Display for Tally {
    ghost output = { λ t. Some (tally_text t) };

    fn fmt<W: fmt::Write>(&self, f: &mut fmt::Formatter<W>) -> fmt::Result {
        let Tally {
            taken_in,
            refused,
            answered,
            malformed,
        } = *self;
        write!(
            f,
            "# {taken_in} commits taken in, {refused} refused, {answered} questions answered, {malformed} malformed"
        )
    }
}
