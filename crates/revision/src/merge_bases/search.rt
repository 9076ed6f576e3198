// The walks of a question, over one workspace.
ghost use Rattle.std.specs.Prelude.{◌≡◌, ℕ, ◌*◌, ◌<◌, ◌≤◌, true, [], length, take, drop};
ghost use Rattle.ancestry.specs.Sets.{member};
ghost use Rattle.ancestry.specs.Bases.{best, ids, head, shared, shared_by_all};
ghost use Rattle.ancestry.specs.Ids.{num, nums, num_if};
ghost use Rattle.history.specs.Unchanged.{Unchanged};
ghost use Rattle.painting.specs.Listings.{listed};
ghost use Rattle.painting.specs.Seeded.{meeting};
ghost use Rattle.painting.specs.Walks.{Bests};
ghost use Rattle.revision.specs.Folding.{Spans};
ghost use Rattle.painting.specs.Below.{AllBelow};
ghost use Rattle.revision.specs.Searching.{Fits};

use ancestry::Id;
use history::Reader;
use painting::{
    Places, first_best, list_best, paint_down_to_common, paint_from_places, remove_redundant,
};
use queue::Keyed;

/// The memory of a question, with the places that are found.
#[derive(Drop)]
pub(crate) struct Search<'a> {
    marks: &'a mut [u64],
    queue: &'a mut [Keyed],
    results: Places<'a>,
    stack: &'a mut [usize],
}

impl<'a> Search<'a> {
    /// A search in a history of `count` commits, which has found nothing yet.
    pub(crate) fn new(
        marks: &'a mut [u64],
        queue: &'a mut [Keyed],
        stack: &'a mut [usize],
        count: usize,
    ) -> Search<'a>
        requires marks { count ≤ length marks.old }
        requires queue { count ≤ length queue.old }
        requires stack { 2 * count ≤ length stack.old }
        ensures fits { Fits count result }
        ensures none { listed result.results ≡ [] }
    {
        let (results, stack) = stack.split_at_mut(count);
        Search {
            marks: &mut marks[0..count],
            queue,
            results: Places::new(results),
            stack,
        }
    }

    /// Lists the merge bases, where the history has to be walked, and says how many there are.
    pub(crate) fn find_bases<H: Reader>(
        &mut self,
        history: &mut H,
        first: Id,
        others: &[Id],
        answers: &mut [Id],
    ) -> usize
        requires whole { H.whole history.old }
        requires fits { Fits (length (H.commits history.old)) self.old }
        requires answers { length (H.commits history.old) ≤ length answers.old }
        ensures same { Unchanged H.Reader history.old history.new }
        ensures few { result ≤ length (H.commits history.old) }
        ensures written { nums (take result answers.new) ≡ ids (H.commits history.old) (best (H.commits history.old) (shared (H.commits history.old) (num first) (nums others.now))) }
        ensures beyond { drop result answers.new ≡ drop result answers.old }
    {
        paint_down_to_common(
            history,
            first,
            others,
            self.marks,
            self.queue,
            &mut self.results,
        );
        remove_redundant(history, self.marks, &mut self.results, self.stack);
        list_best(history, self.results.as_slice(), self.queue, answers)
    }

    /// The best common commit, where the history has to be walked.
    pub(crate) fn find_common<H: Reader>(
        &mut self,
        history: &mut H,
        first: Id,
        others: &[Id],
    ) -> Option<Id>
        requires whole { H.whole history.old }
        requires some { 0 < length others.now }
        requires fits { Fits (length (H.commits history.old)) self.old }
        requires none { listed self.old.results ≡ [] }
        ensures same { Unchanged H.Reader history.old history.new }
        ensures answer { num_if result ≡ head (ids (H.commits history.old) (best (H.commits history.old) (shared_by_all (H.commits history.old) (num first) (nums others.now)))) }
    {
        self.start(history, first);
        for other in others {
            self.round(history, *other);
        }
        first_best(history, self.results.as_slice(), self.queue)
    }

    // The place of the first commit, if it is held.
    fn start<H: Reader>(&mut self, history: &mut H, first: Id)
        requires whole { H.whole history.old }
        requires fits { Fits (length (H.commits history.old)) self.old }
        requires none { listed self.old.results ≡ [] }
        ensures same { Unchanged H.Reader history.old history.new }
        ensures fits { Fits (length (H.commits history.old)) self.new }
        ensures spans { Spans (H.commits history.old) (num first) [] (listed self.new.results) }
    {
        let Some(place) = history.find(first) else {
            return;
        };
        self.results.push(place);
    }

    // One more commit: the best that it and one of the places found reach.
    fn round<H: Reader>(&mut self, history: &mut H, id: Id)
        requires whole { H.whole history.old }
        requires fits { Fits (length (H.commits history.old)) self.old }
        requires inside { AllBelow (length (H.commits history.old)) (listed self.old.results) }
        ensures same { Unchanged H.Reader history.old history.new }
        ensures fits { Fits (length (H.commits history.old)) self.new }
        ensures bests { Bests (H.commits history.old) (meeting (H.commits history.old) (num id) (listed self.old.results)) (listed self.new.results) }
    {
        let results = &mut self.results;
        paint_from_places(history, id, self.marks, self.queue, results);
        remove_redundant(history, self.marks, results, self.stack);
    }
}
