ghost use Rattle.std.specs.Prelude.{◌≡◌, ℕ, ◌+◌, ◌<◌, ◌≤◌, List, [], ◌∷◌, ◌++◌, length};
ghost use Rattle.std.specs.List.{slice_get};
ghost use Rattle.ancestry.specs.Commits.{place_of, parents_of};
ghost use Rattle.ancestry.specs.Ids.{num};
ghost use Rattle.history.specs.Meaning.{offered, Reads};
ghost use Rattle.history.specs.Tables.{commit_of, listed};

use crate::grow::NewCommit;
use crate::reader::Entry;
use ancestry::Id;
use arrayvec::ArrayVec;

// One commit as it is stored.
#[derive(Default, Drop)]
pub struct Row {
    id: Id,
    generation: Option<u32>,
    date: i64,
    parents: ArrayVec<usize, 16>,
}

// Rows for at most N commits. They lie in the table itself, which takes no heap.
#[derive(Drop)]
pub struct Table<const N: usize> {
    rows: ArrayVec<Row, N>,
}

impl Row {
    // The row of a commit. It is no `From`, which could not ask for at most 16 parents.
    pub(crate) fn of(commit: &NewCommit<'_>) -> Row
        requires { length commit.now.parents.now ≤ 16 }
        ensures { commit_of result ≡ offered commit.now }
    {
        Row {
            id: commit.id,
            generation: commit.generation,
            date: commit.date,
            parents: ArrayVec::try_from(commit.parents).unwrap(),
        }
    }
}

impl<const N: usize> Table<N> {
    pub(crate) fn new() -> Table<N>
        ensures { listed result ≡ [] }
    {
        Table {
            rows: ArrayVec::new(),
        }
    }

    // One more row, where there is room.
    pub(crate) fn push(&mut self, row: Row)
        requires { length (listed self.old) < N }
        ensures { listed self.new ≡ listed self.old ++ commit_of row ∷ [] }
    {
        self.rows.push(row);
    }

    pub(crate) fn len(&self) -> usize
        ensures { result ≡ length (listed self.now) }
    {
        self.rows.len()
    }

    pub(crate) fn find(&self, id: Id) -> Option<usize>
        ensures { result ≡ place_of (listed self.now) (num id) }
    {
        self.rows.iter().position(|row| row.id == id)
    }

    // What is told of a commit is less than what is stored, so a row is no `Entry`, and converts into none.
    pub(crate) fn read(&self, place: usize) -> Option<Entry>
        ensures { Reads (listed self.now) place result }
    {
        let row = self.rows.get(place)?;
        Some(Entry {
            id: row.id,
            generation: row.generation,
            date: row.date,
            parents: row.parents.len(),
        })
    }

    pub(crate) fn parent(&self, place: usize, n: usize) -> Option<usize>
        ensures { result ≡ slice_get (parents_of (listed self.now) place) n }
    {
        self.rows.get(place)?.parents.get(n).copied()
    }
}
