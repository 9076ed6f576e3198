// The walk down from the parents of results.
ghost use Rattle.std.specs.Prelude.{◌≡◌, ℕ, ◌<◌, true, [], List, length};
ghost use Rattle.ancestry.specs.Sets.{member};
ghost use Rattle.ancestry.specs.Commits.{parents_of};
ghost use Rattle.painting.specs.Bits.{flags};
ghost use Rattle.painting.specs.Descents.{Ready, Goes, walk_of};
ghost use Rattle.painting.specs.Listings.{listed};
ghost use Rattle.painting.specs.Marks.{mark};
ghost use Rattle.painting.specs.Painted.{Unmet};
ghost use Rattle.painting.specs.Below.{AllBelow};
ghost use Rattle.painting.specs.Walks.{meet, meet_all, Fresh, Tracked};

use crate::entries::{keyed, parents_of};
use crate::marks::{Mark, get, put};
use crate::places::Places;
use history::Reader;

// The history goes beside a descent, and what is ready is a clause, as for a painter.

/// The marks of all places, the places met whose parents are still to be met, and the lowest generation that is walked.
#[derive(Drop)]
pub(crate) struct Descent<'a, 'p> {
    pub(crate) marks: &'a mut [u64],
    pub(crate) stack: &'a mut Places<'p>,
    pub(crate) low: u32,
}

impl<'a, 'p> Descent<'a, 'p> {
    /// Meets the parents of all places.
    pub(crate) fn start<H: Reader>(&mut self, history: &mut H, places: &[usize])
        requires ready { Ready H.Reader history.old self.old }
        requires empty { listed self.old.stack.now ≡ [] }
        requires inside { AllBelow (length (H.commits history.old)) places.now }
        requires unmet { Unmet (flags self.old.marks.now) }
        requires fresh { Fresh places.now (flags self.old.marks.now) }
        ensures goes { Goes H.Reader history.old history.new self.old self.new }
        ensures tracked { Tracked (H.commits history.old) self.old.low places.now places.now (walk_of self.new) }
    {
        for place in places {
            self.meet_parents(history, *place);
        }
    }

    /// Walks on until no place is left whose parents are to be met.
    pub(crate) fn walk<H: Reader>(&mut self, history: &mut H)
        requires ready { Ready H.Reader history.old self.old }
        requires inside { AllBelow (length (H.commits history.old)) (listed self.old.stack.now) }
        ensures goes { Goes H.Reader history.old history.new self.old self.new }
        ensures over { listed self.new.stack.now ≡ [] }
        ensures tracked { (rs bs : List ℕ) → Tracked (H.commits history.old) self.old.low rs bs (walk_of self.old) → Tracked (H.commits history.old) self.old.low rs bs (walk_of self.new) }
    {
        while let Some(place) = self.stack.pop() {
            self.meet_parents(history, place);
        }
    }

    // Meets all parents of a place.
    fn meet_parents<H: Reader>(&mut self, history: &mut H, place: usize)
        requires ready { Ready H.Reader history.old self.old }
        requires below { place < length (H.commits history.old) }
        ensures goes { Goes H.Reader history.old history.new self.old self.new }
        ensures walk { walk_of self.new ≡ meet_all (H.commits history.old) self.old.low (parents_of (H.commits history.old) place) (walk_of self.old) }
    {
        // A history gives its parents by their numbers.
        for n in 0..parents_of(history, place) {
            let parent = history.parent(place, n).unwrap();
            self.meet(history, parent);
        }
    }

    // The mark of a place. Read through a method, the marks are known to stay as they are.
    fn mark(&self, place: usize) -> Mark
        requires { place < length self.now.marks.now }
        ensures { result ≡ mark (flags self.now.marks.now) place }
    {
        get(self.marks, place)
    }

    // Meets a place, unless it was met or its generation is below the lowest.
    fn meet<H: Reader>(&mut self, history: &mut H, place: usize)
        requires ready { Ready H.Reader history.old self.old }
        requires below { place < length (H.commits history.old) }
        ensures goes { Goes H.Reader history.old history.new self.old self.new }
        ensures walk { walk_of self.new ≡ meet (H.commits history.old) self.old.low place (walk_of self.old) }
    {
        let mark = self.mark(place);
        if mark.met || keyed(history, place).generation < self.low {
            return;
        }
        put(self.marks, place, mark.seen());
        self.stack.push(place);
    }
}
