ghost use Rattle.std.specs.Prelude.{◌≡◌, List, []};
ghost use Rattle.history.specs.Tables.{listed, Stored};

use crate::grow::{History, NewCommit};
use crate::reader::{Entry, Reader};
use crate::table::{Row, Table};
use crate::verdict::admits;
use ancestry::{Id, Refusal};

const CAPACITY: usize = 512;

/// A history in tables of its own, for at most 512 commits. It takes no memory from a heap.
#[derive(Drop)]
pub struct Rows {
    table: Table<CAPACITY>,
}

impl Rows {
    /// An empty history.
    pub fn open() -> Rows
        ensures whole { Stored 512 result.table }
        ensures empty { listed result.table ≡ [] }
    {
        Rows {
            table: Table::new(),
        }
    }
}

impl Reader for Rows {
    ghost whole = { λ h. Stored 512 h.table };

    ghost commits = { λ h. listed h.table };

    ghost room = { λ _. 512 };

    ghost lawful = { λ _ w. w.laws };

    fn count(&mut self) -> usize {
        self.table.len()
    }

    fn capacity(&mut self) -> usize {
        CAPACITY
    }

    fn find(&mut self, id: Id) -> Option<usize> {
        self.table.find(id)
    }

    fn read(&mut self, place: usize) -> Option<Entry> {
        self.table.read(place)
    }

    fn parent(&mut self, place: usize, n: usize) -> Option<usize> {
        self.table.parent(place, n)
    }
}

impl History for Rows {
    fn intake(&mut self, commit: &NewCommit<'_>) -> Result<usize, Refusal> {
        admits(self, commit)?;
        let place = self.table.len();
        self.table.push(Row::of(commit));
        Ok(place)
    }
}
