ghost use Rattle.std.specs.Prelude.{◌≡◌, ℕ, List, length};
ghost use Rattle.std.specs.List.{slice_get};
ghost use Rattle.ancestry.specs.Commits.{Commit, place_of, parents_of};
ghost use Rattle.ancestry.specs.Ids.{num};
ghost use Rattle.ancestry.specs.Lawful.{Laws};
ghost use Rattle.history.specs.Meaning.{Same, Reads};

use ancestry::Id;
use std::fmt;

/// What `read` tells of a commit.
#[derive(Clone, Copy, PartialEq, Eq, Debug)]
pub struct Entry {
    pub id: Id,
    /// Absent, or 0 to 1,073,741,823.
    pub generation: Option<u32>,
    /// Seconds since 1970, -17,179,869,184 to 17,179,869,183.
    pub date: i64,
    /// The number of parents, at most 16.
    pub parents: usize,
}

/// A history as it is looked at: a capacity, and a list of commits by place.
///
/// The look-ups leave that meaning as it was. They take the history as changeable all the same, since a layer may remember
/// what it looked up.
pub trait Reader {
    /// The values of which the laws and the answers are owed. Each implementation says which they are: this, and nothing else,
    /// is what a call is given.
    ghost whole: { Self → Type 0 };

    /// The commits by place.
    ghost commits: { Self → List Commit };

    /// The capacity.
    ghost room: { Self → ℕ };

    /// The laws of a history, of every whole value.
    ghost lawful: { (h : Self) → whole h → Laws (room h) (commits h) };

    /// How many commits the history holds.
    fn count(&mut self) -> usize
        requires { whole self.old }
        ensures same { Same whole commits room self.old self.new }
        ensures answer { result ≡ length (commits self.old) };

    /// How many commits the history can hold, at most 1,000,000.
    fn capacity(&mut self) -> usize
        requires { whole self.old }
        ensures same { Same whole commits room self.old self.new }
        ensures answer { result ≡ room self.old };

    /// The place of the commit that has the id, or none.
    fn find(&mut self, id: Id) -> Option<usize>
        requires { whole self.old }
        ensures same { Same whole commits room self.old self.new }
        ensures answer { result ≡ place_of (commits self.old) (num id) };

    /// The commit at the place; beyond the list none.
    fn read(&mut self, place: usize) -> Option<Entry>
        requires { whole self.old }
        ensures same { Same whole commits room self.old self.new }
        ensures answer { Reads (commits self.old) place result };

    /// The place of the parent number `n`, from 0, of the commit at the place; beyond the list or the parents none.
    fn parent(&mut self, place: usize, n: usize) -> Option<usize>
        requires { whole self.old }
        ensures same { Same whole commits room self.old self.new }
        ensures answer { result ≡ slice_get (parents_of (commits self.old) place) n };
}

/// The id, the generation or `-`, the date and the number of parents, parted by blanks.
impl fmt::Display for Entry {
    ghost use Rattle.std.specs.Prelude.{Some};
    ghost use Rattle.history.specs.Printed.{entry_text};

    ghost output = { λ e. Some (entry_text e) };

    fn fmt<W: fmt::Write>(&self, f: &mut fmt::Formatter<W>) -> fmt::Result {
        let Entry {
            id,
            date,
            parents,
            ..
        } = *self;
        match self.generation {
            Some(generation) => write!(f, "{id} {generation} {date} {parents}"),
            None => write!(f, "{id} - {date} {parents}"),
        }
    }
}
