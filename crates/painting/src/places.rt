// Lists of places in lent slices.
ghost use Rattle.std.specs.Prelude.{◌≡◌, ℕ, ◌<◌, ◌≤◌, Bool, true, [], ◌∷◌, ◌++◌, length, take};
ghost use Rattle.std.specs.Option.{MatchOption};
ghost use Rattle.ancestry.specs.Sets.{member, keep};

/// A list of places in a lent slice.
///
/// The first `len` slots hold the list; what the others hold does not matter. The memory is lent, so how much of it is in use
/// stands beside it.
#[derive(Drop)]
pub struct Places<'a> {
    slots: &'a mut [usize],
    len: usize,
    ghost fits: { len ≤ length slots.now },
}

impl<'a> Places<'a> {
    ghost use Rattle.painting.specs.Listings.{listed, room};

    /// An empty list that has room for as many places as the slice has slots.
    pub fn new(slots: &'a mut [usize]) -> Places<'a>
        ensures held { result.slots.ghost_name ≡ slots.entry.ghost_name }
        ensures empty { listed result ≡ [] }
        ensures room { room result ≡ length slots.old }
    {
        Places { slots, len: 0 }
    }

    /// The list that the first `len` slots hold.
    pub fn of_first(slots: &'a mut [usize], len: usize) -> Places<'a>
        requires { len ≤ length slots.old }
        ensures held { result.slots.ghost_name ≡ slots.entry.ghost_name }
        ensures listed { listed result ≡ take len slots.old }
        ensures room { room result ≡ length slots.old }
    {
        Places { slots, len }
    }

    /// The list.
    pub fn as_slice(&self) -> &[usize]
        ensures { result.now ≡ listed self.now }
    {
        &self.slots[0..self.len]
    }

    /// Puts a place at the end of the list, which has room.
    pub fn push(&mut self, place: usize)
        requires { length (listed self.old) < room self.old }
        ensures held { self.new.slots.ghost_name ≡ self.old.slots.ghost_name }
        ensures room { room self.new ≡ room self.old }
        ensures listed { listed self.new ≡ listed self.old ++ place ∷ [] }
    {
        self.slots[self.len] = place;
        self.len += 1;
    }

    /// Takes the place at the end of the list, if it has one.
    pub(crate) fn pop(&mut self) -> Option<usize>
        ensures held { self.new.slots.ghost_name ≡ self.old.slots.ghost_name }
        ensures room { room self.new ≡ room self.old }
        ensures answer { MatchOption result ((listed self.old ≡ []) × (listed self.new ≡ [])) (λ p. listed self.old ≡ listed self.new ++ p ∷ []) }
    {
        if self.len == 0 {
            return None;
        }
        self.len -= 1;
        Some(self.slots[self.len])
    }

    /// Keeps the first `len` places; a list that has no more stays as it is.
    pub fn truncate(&mut self, len: usize)
        ensures held { self.new.slots.ghost_name ≡ self.old.slots.ghost_name }
        ensures room { room self.new ≡ room self.old }
        ensures listed { listed self.new ≡ take len (listed self.old) }
    {
        self.len = self.len.min(len);
    }

    /// Empties the list.
    pub(crate) fn clear(&mut self)
        ensures held { self.new.slots.ghost_name ≡ self.old.slots.ghost_name }
        ensures room { room self.new ≡ room self.old }
        ensures empty { listed self.new ≡ [] }
    {
        self.len = 0;
    }

    /// Keeps the places that pass a test, in their order.
    pub(crate) fn retain<F: Fn(usize) -> bool>(&mut self, test: F)
        requires { (p : ℕ) → member p (listed self.old) ≡ true → F.pre test p }
        ensures held { self.new.slots.ghost_name ≡ self.old.slots.ghost_name }
        ensures room { room self.new ≡ room self.old }
        ensures kept { (t : ℕ → Bool) → ((p : ℕ) (b : Bool) → member p (listed self.old) ≡ true → F.post test p b → b ≡ t p) → listed self.new ≡ keep t (listed self.old) }
    {
        let len = self.len;
        self.len = 0;
        // By number, since the slots that are read are written meanwhile.
        for i in 0..len {
            let next = self.slots[i];
            if test(next) {
                self.slots[self.len] = next;
                self.len += 1;
            }
        }
    }
}
