// A painting under way: places told of flags, one after another.
ghost use Rattle.std.specs.Prelude.{◌≡◌, ℕ, ◌+◌, ◌^◌, ◌<◌, ◌≤◌, Bool, true, [], length, slice_set};
ghost use Rattle.ancestry.specs.Commits.{parents_of};
ghost use Rattle.ancestry.specs.Sets.{member};
ghost use Rattle.queue.specs.Kinds.{beats};
ghost use Rattle.queue.specs.Queues.{waiting, room as space, Whole};
ghost use Rattle.painting.specs.Marks.{mark, hand, hand_all, total, lively};
ghost use Rattle.painting.specs.Bits.{flags};
ghost use Rattle.painting.specs.Listings.{listed, room};
ghost use Rattle.painting.specs.Painted.{Kept, Noted, Good, Down, Unmet};
ghost use Rattle.painting.specs.Painters.{Ready, Goes};
ghost use Rattle.painting.specs.Below.{AllBelow};
ghost use Rattle.painting.specs.Seeded.{Blank, places_by};

use crate::entries::{keyed, parents_of};
use crate::marks::{Mark, Told, get, put};
use crate::places::Places;
use crate::seed::Seed;
use history::Reader;
use queue::{Keyed, Queue};

// The history goes beside a painter: one that held it was tried, and where it ends no proof closed of what the history then holds.
// What is ready before a call and after it is a clause: as a ghost field it would be false between an insertion and its mark.

/// The marks of all places, the queue of those that wait, and how many of these are not stale.
#[derive(Drop)]
pub(crate) struct Painter<'a, 'q> {
    marks: &'a mut [u64],
    queue: &'a mut Queue<'q, Keyed>,
    live: usize,
}

impl<'a, 'q> Painter<'a, 'q> {
    /// A painter that has told nothing: every mark is blank, and no place waits.
    pub(crate) fn new(marks: &'a mut [u64], queue: &'a mut Queue<'q, Keyed>) -> Painter<'a, 'q>
        requires whole { Whole beats queue.old }
        requires empty { waiting queue.old ≡ [] }
        requires space { length marks.old ≤ space queue.old }
        ensures held { result.marks.ghost_name ≡ marks.entry.ghost_name }
        ensures size { length result.marks.now ≡ length marks.old }
        ensures blank { Blank (flags result.marks.now) }
        ensures kept { Kept (flags result.marks.now) result.queue.now result.live }
    {
        marks.fill(0);
        Painter {
            marks,
            queue,
            live: 0,
        }
    }

    /// Tells the places of the seeds; a seed that has none is passed over.
    pub(crate) fn seed<H: Reader, S: Seed>(&mut self, history: &mut H, seeds: &[S], told: Told)
        requires ready { Ready H.Reader history.old self.old }
        requires inside { AllBelow (length (H.commits history.old)) (places_by (S.place_in (H.commits history.old)) seeds.now) }
        ensures goes { Goes H.Reader history.old history.new self.old self.new }
        ensures marks { flags self.new.marks.now ≡ hand_all told (places_by (S.place_in (H.commits history.old)) seeds.now) (flags self.old.marks.now) }
    {
        for seed in seeds {
            let Some(place) = seed.place(history) else {
                continue;
            };
            self.tell(history, place, told);
        }
    }

    /// Takes waiting places, best first, until all that wait are stale, and notes the results.
    pub(crate) fn paint<H: Reader>(&mut self, history: &mut H, results: &mut Places<'_>)
        requires ready { Ready H.Reader history.old self.old }
        requires room { length (H.commits history.old) ≤ room results.old }
        requires none { Noted (flags self.old.marks.now) (listed results.old) }
        requires unmet { Unmet (flags self.old.marks.now) }
        ensures goes { Goes H.Reader history.old history.new self.old self.new }
        ensures good { (A B : ℕ → Bool) → Down (H.commits history.old) A → Down (H.commits history.old) B → Good (H.commits history.old) A B (flags self.old.marks.now) → Good (H.commits history.old) A B (flags self.new.marks.now) }
        ensures idle { total lively (flags self.new.marks.now) ≡ 0 }
        ensures held { results.new.slots.ghost_name ≡ results.old.slots.ghost_name }
        ensures room { room results.new ≡ room results.old }
        ensures noted { Noted (flags self.new.marks.now) (listed results.new) }
        ensures unmet { Unmet (flags self.new.marks.now) }
    {
        while self.live > 0 {
            let place = self.queue.take().unwrap().place;
            let mark = self.mark(place);
            self.set(place, mark.settled());
            if mark.is_newly_result() {
                results.push(place);
            }
            self.tell_parents(history, place, mark.passed_on());
        }
    }

    // Tells all parents of a place.
    fn tell_parents<H: Reader>(&mut self, history: &mut H, place: usize, told: Told)
        requires ready { Ready H.Reader history.old self.old }
        requires below { place < length (H.commits history.old) }
        ensures goes { Goes H.Reader history.old history.new self.old self.new }
        ensures marks { flags self.new.marks.now ≡ hand_all told (parents_of (H.commits history.old) place) (flags self.old.marks.now) }
    {
        // A history gives its parents by their numbers, and a closure told of each, which changes the history, leaves no proof; so
        // a descent has such a loop of its own.
        for n in 0..parents_of(history, place) {
            let parent = history.parent(place, n).unwrap();
            self.tell(history, parent, told);
        }
    }

    // Tells a place. Where it lacks some of the flags it gains them, and waits.
    fn tell<H: Reader>(&mut self, history: &mut H, place: usize, told: Told)
        requires ready { Ready H.Reader history.old self.old }
        requires below { place < length (H.commits history.old) }
        ensures goes { Goes H.Reader history.old history.new self.old self.new }
        ensures marks { flags self.new.marks.now ≡ hand told place (flags self.old.marks.now) }
    {
        let mark = self.mark(place);
        if mark.covers(told) {
            return;
        }
        if !mark.waiting {
            self.queue.insert(keyed(history, place)).unwrap();
        }
        self.set(place, mark.joined(told));
    }

    // The mark of a place. Read through a method, the marks are known to stay as they are.
    fn mark(&self, place: usize) -> Mark
        requires { place < length self.now.marks.now }
        ensures { result ≡ mark (flags self.now.marks.now) place }
    {
        get(self.marks, place)
    }

    // Writes the mark of a place, and counts those that wait and are not stale.
    fn set(&mut self, place: usize, mark: Mark)
        requires below { place < length self.old.marks.now }
        requires few { length self.old.marks.now + 1 < 2 ^ 64 }
        requires alive { self.old.live ≡ total lively (flags self.old.marks.now) }
        ensures held { self.new.marks.ghost_name ≡ self.old.marks.ghost_name }
        ensures marks { flags self.new.marks.now ≡ slice_set (flags self.old.marks.now) place mark }
        ensures queue { self.new.queue.now ≡ self.old.queue.now }
        ensures alive { self.new.live ≡ total lively (flags self.new.marks.now) }
    {
        self.live = recounted(self.live, self.mark(place), mark);
        put(self.marks, place, mark);
    }
}

// How many wait and are not stale, once one mark has taken the place of another.
fn recounted(live: usize, old: Mark, new: Mark) -> usize
    requires counted { lively old ≤ live }
    requires fits { live + lively new < 2 ^ 64 }
    ensures { result + lively old ≡ live + lively new }
{
    match (old.is_alive(), new.is_alive()) {
        (true, false) => live - 1,
        (false, true) => live + 1,
        _ => live,
    }
}
