ghost use Rattle.std.specs.Prelude.{◌≡◌, ℕ, [], length, is_ok, nat_lt};
ghost use Rattle.queue.specs.Queues.{waiting, room, Whole, Inserted, Taken};

use crate::entry::Entry;
use crate::heap::{put_last, take_first};
use ancestry::Refusal;

/// A priority queue in a lent slice. The best entry leaves first.
///
/// The first `len` slots hold the entries that wait, in heap order; what the others hold does not matter. The memory is lent,
/// so how much of it is in use stands beside it. That the order is kept is a fact that each call is given and gives back: as a
/// ghost field it would make every definition of a queue carry the ghost members of its entries.
#[derive(Drop)]
pub struct Queue<'a, E> {
    entries: &'a mut [E],
    len: usize,
}

impl<'a, E: Entry> Queue<'a, E> {
    /// An empty queue that has room for as many entries as the slice has slots.
    pub fn new(entries: &'a mut [E]) -> Queue<'a, E>
        ensures whole { Whole E.better result }
        ensures empty { waiting result ≡ [] }
        ensures room { room result ≡ length entries.old }
    {
        Queue { entries, len: 0 }
    }

    /// Puts the entry among those that wait; refused where the slice is full.
    pub fn insert(&mut self, e: E) -> Result<(), Refusal>
        requires { Whole E.better self.old }
        ensures whole { Whole E.better self.new }
        ensures room { room self.new ≡ room self.old }
        ensures accepted { is_ok result ≡ nat_lt (length (waiting self.old)) (room self.old) }
        ensures answer { Inserted e self.old result self.new }
    {
        let last = self.len;
        if last >= self.entries.len() {
            return Err(Refusal::WorkspaceShort);
        }
        put_last(self.entries, last, e);
        self.len = last + 1;
        Ok(())
    }

    /// The best of the entries that wait, which waits no longer; none where nothing waits.
    pub fn take(&mut self) -> Option<E>
        requires { Whole E.better self.old }
        ensures whole { Whole E.better self.new }
        ensures room { room self.new ≡ room self.old }
        ensures answer { Taken E.better self.old result self.new }
    {
        let last = self.len.checked_sub(1)?;
        let best = take_first(self.entries, last);
        self.len = last;
        Some(best)
    }
}
