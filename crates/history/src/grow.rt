ghost use Rattle.std.specs.Prelude.{◌≡◌, length};
ghost use Rattle.ancestry.specs.Intake.{refusal, unless};
ghost use Rattle.history.specs.Meaning.{offered, Grown};

use crate::reader::Reader;
use ancestry::{Id, Refusal};

/// A commit that is offered to a history: anything may be, and what lies outside what the comments say is refused.
#[derive(Clone, Copy)]
pub struct NewCommit<'a> {
    pub id: Id,
    /// Absent, or 0 to 1,073,741,823.
    pub generation: Option<u32>,
    /// Seconds since 1970, -17,179,869,184 to 17,179,869,183.
    pub date: i64,
    /// The places of its parents in that history, in order, at most 16.
    pub parents: &'a [usize],
}

/// A history that takes commits in.
pub trait History: Reader {
    /// Takes in one commit, and answers its place; or refuses it, and changes nothing.
    fn intake(&mut self, commit: &NewCommit<'_>) -> Result<usize, Refusal>
        requires { Self.whole self.old }
        ensures grown { Grown Self.whole Self.commits Self.room self.old (offered commit.now) self.new }
        ensures answer { result ≡ unless (refusal (Self.room self.old) (Self.commits self.old) (offered commit.now)) (length (Self.commits self.old)) };
}
