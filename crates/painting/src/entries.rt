// What the history tells of a place, as the queue and the walks want it.
ghost use Rattle.std.specs.Prelude.{◌≡◌, ◌<◌, length};
ghost use Rattle.ancestry.specs.Commits.{parents_of};
ghost use Rattle.history.specs.Unchanged.{Unchanged};
ghost use Rattle.painting.specs.Entries.{Keys};

use ancestry::rank;
use history::Reader;
use queue::Keyed;

/// The queue's entry for a place.
pub(crate) fn keyed<H: Reader>(history: &mut H, place: usize) -> Keyed
    requires whole { H.whole history.old }
    requires below { place < length (H.commits history.old) }
    ensures same { Unchanged H.Reader history.old history.new }
    ensures keys { Keys (H.commits history.old) place result }
{
    let entry = history.read(place).unwrap();
    Keyed {
        generation: rank(entry.generation),
        date: entry.date,
        id: entry.id,
        place,
    }
}

/// How many parents a place has.
pub(crate) fn parents_of<H: Reader>(history: &mut H, place: usize) -> usize
    requires whole { H.whole history.old }
    requires below { place < length (H.commits history.old) }
    ensures same { Unchanged H.Reader history.old history.new }
    ensures answer { result ≡ length (parents_of (H.commits history.old) place) }
{
    history.read(place).unwrap().parents
}
