// Of the results those that no other reaches.
ghost use Rattle.std.specs.Prelude.{◌≡◌, ℕ, ◌<◌, ◌≤◌, Bool, true, length};
ghost use Rattle.ancestry.specs.Sets.{member, keep};
ghost use Rattle.history.specs.Unchanged.{Unchanged};
ghost use Rattle.painting.specs.Bits.{flags};
ghost use Rattle.painting.specs.Listings.{listed, room};
ghost use Rattle.painting.specs.Marks.{mark, left};
ghost use Rattle.painting.specs.Painted.{Painted, Unmet};
ghost use Rattle.painting.specs.Below.{AllBelow};
ghost use Rattle.painting.specs.Walks.{level, Bests};

use crate::descent::Descent;
use crate::entries::keyed;
use crate::marks::get;
use crate::places::Places;
use history::Reader;

/// Keeps, of the places in `results`, those that no other shared commit reaches.
///
/// Nothing is walked where one is left. Else the walk goes down from their parents through all parents, and never below the
/// smallest generation among them.
pub fn remove_redundant<H: Reader>(
    history: &mut H,
    marks: &mut [u64],
    results: &mut Places<'_>,
    stack: &mut [usize],
)
    requires whole { H.whole history.old }
    requires size { length marks.old ≡ length (H.commits history.old) }
    requires stack { length (H.commits history.old) ≤ length stack.old }
    requires inside { AllBelow (length (H.commits history.old)) (listed results.old) }
    requires unmet { Unmet (flags marks.old) }
    ensures same { Unchanged H.Reader history.old history.new }
    ensures held { results.new.slots.ghost_name ≡ results.old.slots.ghost_name }
    ensures room { room results.new ≡ room results.old }
    ensures few { length (listed results.new) ≤ length (listed results.old) }
    ensures inside { AllBelow (length (H.commits history.old)) (listed results.new) }
    ensures bests { (S : ℕ → Bool) → Painted (H.commits history.old) S (flags marks.old) (listed results.old) → Bests (H.commits history.old) S (listed results.new) }
{
    retain_left(marks, results);
    let alone = results.as_slice().len() <= 1;
    if alone {
        return;
    }
    let mut stack = Places::new(stack);
    let mut descent = Descent {
        marks,
        stack: &mut stack,
        low: lowest(history, results.as_slice()),
    };
    descent.start(history, results.as_slice());
    descent.walk(history);
    retain_left(marks, results);
}

// Keeps the places above which no result is known.
fn retain_left(marks: &[u64], places: &mut Places<'_>)
    requires inside { AllBelow (length marks.now) (listed places.old) }
    ensures held { places.new.slots.ghost_name ≡ places.old.slots.ghost_name }
    ensures room { room places.new ≡ room places.old }
    ensures kept { listed places.new ≡ keep (λ p. left (mark (flags marks.now) p)) (listed places.old) }
{
    places.retain(|place| get(marks, place).is_left());
}

// The smallest generation among the places.
fn lowest<H: Reader>(history: &mut H, places: &[usize]) -> u32
    requires whole { H.whole history.old }
    requires inside { AllBelow (length (H.commits history.old)) places.now }
    ensures same { Unchanged H.Reader history.old history.new }
    ensures least { (p : ℕ) → member p places.now ≡ true → result ≤ level (H.commits history.old) p }
{
    let mut low = u32::MAX;
    // A loop, since a look-up takes the history as changeable, and of what a closure changed the check knows nothing.
    for place in places {
        low = low.min(keyed(history, *place).generation);
    }
    low
}
