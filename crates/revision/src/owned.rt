ghost use Rattle.std.specs.Prelude.{◌≡◌, length, IfOk};
ghost use Rattle.ancestry.specs.Asking.{space_of, denied, Listed, numbered, first_slot};
ghost use Rattle.ancestry.specs.Intake.{unless};
ghost use Rattle.ancestry.specs.Bases.{bases, octopus};
ghost use Rattle.ancestry.specs.Ids.{num, nums};
ghost use Rattle.history.specs.Unchanged.{Unchanged};
ghost use Rattle.revision.specs.Owned.{sizes_of, needed, slots_of};

use crate::merge_bases::function::merge_base;
use crate::merge_bases::octopus::octopus;
use crate::workspace::Workspace;
use ancestry::{Id, Refusal};
use history::Reader;
use queue::Keyed;
use std::alloc::{AllocError, Global};

/// A workspace that owns its memory, with its answer slots, for callers that have a heap.
///
/// It lends itself to one question after another. Want of memory is an error of making one, and of nothing else.
#[derive(Drop)]
pub struct OwnedWorkspace {
    marks: Vec<u64>,
    queue: Vec<Keyed>,
    stack: Vec<usize>,
    answers: Vec<Id>,
}

impl OwnedWorkspace {
    /// A workspace for questions about histories of at most `count` commits.
    pub fn for_count(heap: Global, count: usize) -> Result<OwnedWorkspace, AllocError>
        ensures { IfOk result (λ w. sizes_of w ≡ needed count) }
    {
        let marks = vec![in heap; 0u64; count]?;
        let queue = vec![in heap; Keyed::default(); 3 * count + 1_001]?;
        let stack = vec![in heap; 0usize; 2 * count]?;
        let answers = vec![in heap; Id::default(); count + 1]?;
        Ok(OwnedWorkspace {
            marks,
            queue,
            stack,
            answers,
        })
    }

    /// A workspace for questions about this history, however it grows: it suffices for as many commits as the history can hold.
    pub fn for_history<H: Reader>(
        heap: Global,
        history: &mut H,
    ) -> Result<OwnedWorkspace, AllocError>
        requires { H.whole history.old }
        ensures same { Unchanged H.Reader history.old history.new }
        ensures answer { IfOk result (λ w. sizes_of w ≡ needed (H.room history.old)) }
    {
        OwnedWorkspace::for_count(heap, history.capacity())
    }

    /// All merge bases of `first` against `others`. Their ids stand in the first of the answer slots, which this workspace keeps for
    /// its caller, so how many there are is answered.
    pub fn merge_base<H: Reader>(
        &mut self,
        history: &mut H,
        first: Id,
        others: &[Id],
    ) -> Result<usize, Refusal>
        requires { H.whole history.old }
        ensures same { Unchanged H.Reader history.old history.new }
        ensures sizes { sizes_of self.new ≡ sizes_of self.old }
        ensures answer { result ≡ unless (denied (sizes_of self.old) (length (H.commits history.old)) (length others.now)) (length (bases (H.commits history.old) (num first) (nums others.now))) }
        ensures slots { Listed (bases (H.commits history.old) (num first) (nums others.now)) (slots_of self.old) result (slots_of self.new) }
    {
        ask_bases(
            history,
            first,
            others,
            self.marks.as_mut_slice(),
            self.queue.as_mut_slice(),
            self.stack.as_mut_slice(),
            self.answers.as_mut_slice(),
        )
    }

    /// The best commit that `first` and every other reach, or none. It stands in the first answer slot, too.
    pub fn octopus<H: Reader>(
        &mut self,
        history: &mut H,
        first: Id,
        others: &[Id],
    ) -> Result<Option<Id>, Refusal>
        requires { H.whole history.old }
        ensures same { Unchanged H.Reader history.old history.new }
        ensures sizes { sizes_of self.new ≡ sizes_of self.old }
        ensures answer { numbered result ≡ unless (denied (sizes_of self.old) (length (H.commits history.old)) (length others.now)) (octopus (H.commits history.old) (num first) (nums others.now)) }
        ensures slots { slots_of self.new ≡ first_slot (slots_of self.old) result }
    {
        ask_common(
            history,
            first,
            others,
            self.marks.as_mut_slice(),
            self.queue.as_mut_slice(),
            self.stack.as_mut_slice(),
            self.answers.as_mut_slice(),
        )
    }

    /// The answer slots.
    pub fn answers(&self) -> &[Id]
        ensures { result.now ≡ slots_of self.now }
    {
        self.answers.as_slice()
    }
}

// The question asked with these slices as its workspace. In the method itself, which would give the slices of its vectors away in
// a struct, the check loses what the vectors hold afterwards: that was tried, and no proof closed. So each question has such a
// function, and the two differ in what they answer.
fn ask_bases<H: Reader>(
    history: &mut H,
    first: Id,
    others: &[Id],
    marks: &mut [u64],
    queue: &mut [Keyed],
    stack: &mut [usize],
    answers: &mut [Id],
) -> Result<usize, Refusal>
    requires { H.whole history.old }
    ensures same { Unchanged H.Reader history.old history.new }
    ensures answer { result ≡ unless (denied (space_of (length marks.old) (length queue.old) (length stack.old) (length answers.old)) (length (H.commits history.old)) (length others.now)) (length (bases (H.commits history.old) (num first) (nums others.now))) }
    ensures slots { Listed (bases (H.commits history.old) (num first) (nums others.now)) answers.old result answers.new }
{
    let space = Workspace {
        marks,
        queue,
        stack,
    };
    merge_base(history, first, others, space, answers)
}

// The same for the base common to all.
fn ask_common<H: Reader>(
    history: &mut H,
    first: Id,
    others: &[Id],
    marks: &mut [u64],
    queue: &mut [Keyed],
    stack: &mut [usize],
    answers: &mut [Id],
) -> Result<Option<Id>, Refusal>
    requires { H.whole history.old }
    ensures same { Unchanged H.Reader history.old history.new }
    ensures answer { numbered result ≡ unless (denied (space_of (length marks.old) (length queue.old) (length stack.old) (length answers.old)) (length (H.commits history.old)) (length others.now)) (octopus (H.commits history.old) (num first) (nums others.now)) }
    ensures slots { answers.new ≡ first_slot answers.old result }
{
    let space = Workspace {
        marks,
        queue,
        stack,
    };
    octopus(history, first, others, space, answers)
}
