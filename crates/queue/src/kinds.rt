ghost use Rattle.std.specs.Prelude.{◌≡◌, Bool, true, false};
ghost use Rattle.ancestry.specs.Keys.{newer, rank, eqZ};
ghost use Rattle.queue.specs.Kinds.{dated, beats, same_key, later, same_date, keyed_commit, dated_commit};
ghost use Rattle.ancestry.proofs.Unique.{better_trans, better_asym};
ghost use Rattle.std.proofs.Common.{arith};
ghost use borrow.Author.Differences.{ints};
ghost use Rattle.std.proofs.lemmas.Bool.Decides.{nat_tests};
ghost use Rattle.ancestry.specs.Keys;
ghost use Rattle.ancestry.proofs.Orders.{newer_trans, newer_asym};

use crate::entry::Entry;
use ancestry::Id;

/// A commit by its key: the greater generation leaves first, then the greater date, then the lower id.
#[derive(Clone, Copy, PartialEq, Eq, Default, Debug)]
pub struct Keyed {
    /// The number that keys compare: by the rules 4,294,967,295 stands for an absent one.
    pub generation: u32,
    pub date: i64,
    pub id: Id,
    pub place: usize,
}

/// A commit by its date: the greater date leaves first, then the lower id.
#[derive(Clone, Copy, PartialEq, Eq, Default, Debug)]
pub struct Dated {
    pub date: i64,
    pub id: Id,
    pub place: usize,
}

impl Entry for Keyed {
    ghost better = { beats };

    ghost alike = { same_key };

    ghost transitive = { λ x y z. better_trans (keyed_commit x) (keyed_commit y) (keyed_commit z) };

    ghost oneway = { λ x y. better_asym (keyed_commit x) (keyed_commit y) };

    ghost total = { unfold Keys.better newer eqZ rank in λ x y p q. (Prim.grind (arith, ints, nat_tests), Prim.grind (arith, ints, nat_tests), Prim.grind (arith, ints, nat_tests)) };

    ghost bykey = { λ x y z (g, d, i). rw (g, d, i) };

    fn is_better(&self, other: &Keyed) -> bool {
        let by_generation = self.generation.cmp(&other.generation);
        // Most entries differ in what is compared first, and the rest is compared of the others alone.
        let by_key = by_generation.then_with(|| self.date.cmp(&other.date));
        by_key.then_with(|| other.id.cmp(&self.id)).is_gt()
    }
}

impl Entry for Dated {
    ghost better = { later };

    ghost alike = { same_date };

    ghost transitive = { λ x y z. newer_trans (dated_commit x) (dated_commit y) (dated_commit z) };

    ghost oneway = { λ x y. newer_asym (dated_commit x) (dated_commit y) };

    ghost total = { unfold newer eqZ in λ x y p q. (Prim.grind (arith, ints, nat_tests), Prim.grind (arith, ints, nat_tests)) };

    ghost bykey = { λ x y z (d, i). rw (d, i) };

    fn is_better(&self, other: &Dated) -> bool {
        let by_date = self.date.cmp(&other.date);
        by_date.then_with(|| other.id.cmp(&self.id)).is_gt()
    }
}
