// Painting a history down to the commits that are shared.
ghost use Rattle.std.specs.Prelude.{◌≡◌, ℕ, ◌<◌, ◌≤◌, true, length};
ghost use Rattle.ancestry.specs.Sets.{member};
ghost use Rattle.ancestry.specs.Bases.{shared};
ghost use Rattle.ancestry.specs.Ids.{num, nums};
ghost use Rattle.history.specs.Unchanged.{Unchanged};
ghost use Rattle.painting.specs.Bits.{flags};
ghost use Rattle.painting.specs.Listings.{listed, room};
ghost use Rattle.painting.specs.Painted.{Painted};
ghost use Rattle.painting.specs.Below.{AllBelow};
ghost use Rattle.painting.specs.Seeded.{meeting};

use crate::marks::Told;
use crate::painter::Painter;
use crate::places::Places;
use ancestry::Id;
use history::Reader;
use queue::{Keyed, Queue};

const OURS: Told = Told {
    first: true,
    others: false,
    stale: false,
};

const THEIRS: Told = Told {
    first: false,
    others: true,
    stale: false,
};

/// Lists commits that `first` and at least one other reach, all of the best among them.
///
/// The `results` that were listed before go. A commit waits in the queue at most once, and a counter says how many of those
/// that wait are not stale: the walk ends where none is left.
pub fn paint_down_to_common<H: Reader>(
    history: &mut H,
    first: Id,
    others: &[Id],
    marks: &mut [u64],
    slots: &mut [Keyed],
    results: &mut Places<'_>,
)
    requires whole { H.whole history.old }
    requires size { length marks.old ≡ length (H.commits history.old) }
    requires slots { length (H.commits history.old) ≤ length slots.old }
    requires results { length (H.commits history.old) ≤ room results.old }
    ensures same { Unchanged H.Reader history.old history.new }
    ensures held { results.new.slots.ghost_name ≡ results.old.slots.ghost_name }
    ensures room { room results.new ≡ room results.old }
    ensures few { length (listed results.new) ≤ length (H.commits history.old) }
    ensures inside { AllBelow (length (H.commits history.old)) (listed results.new) }
    ensures painted { Painted (H.commits history.old) (shared (H.commits history.old) (num first) (nums others.now)) (flags marks.new) (listed results.new) }
{
    let mut queue = Queue::new(slots);
    let mut painter = Painter::new(marks, &mut queue);
    painter.seed(history, &[first], OURS);
    painter.seed(history, others, THEIRS);
    results.clear();
    painter.paint(history, results);
}

/// The same for what an id and at least one of the places in `results` reach.
///
/// It reads its seeds from the list that it then fills, since a workspace has only two places for each commit; so they cannot
/// be lent to it as a slice beside that list, as the others of `paint_down_to_common` are.
pub fn paint_from_places<H: Reader>(
    history: &mut H,
    id: Id,
    marks: &mut [u64],
    slots: &mut [Keyed],
    results: &mut Places<'_>,
)
    requires whole { H.whole history.old }
    requires size { length marks.old ≡ length (H.commits history.old) }
    requires slots { length (H.commits history.old) ≤ length slots.old }
    requires results { length (H.commits history.old) ≤ room results.old }
    requires inside { AllBelow (length (H.commits history.old)) (listed results.old) }
    ensures same { Unchanged H.Reader history.old history.new }
    ensures held { results.new.slots.ghost_name ≡ results.old.slots.ghost_name }
    ensures room { room results.new ≡ room results.old }
    ensures few { length (listed results.new) ≤ length (H.commits history.old) }
    ensures inside { AllBelow (length (H.commits history.old)) (listed results.new) }
    ensures painted { Painted (H.commits history.old) (meeting (H.commits history.old) (num id) (listed results.old)) (flags marks.new) (listed results.new) }
{
    let mut queue = Queue::new(slots);
    let mut painter = Painter::new(marks, &mut queue);
    painter.seed(history, &[id], OURS);
    painter.seed(history, results.as_slice(), THEIRS);
    results.clear();
    painter.paint(history, results);
}
