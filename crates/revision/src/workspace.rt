ghost use Rattle.std.specs.Prelude.{◌≡◌, ◌≤◌, length};
ghost use Rattle.ancestry.specs.Asking.{space_of, denied};
ghost use Rattle.ancestry.specs.Intake.{unless};
ghost use Rattle.revision.specs.Searching.{lent};

use ancestry::{Id, Refusal};
use queue::Keyed;

const MAX_OTHERS: usize = 1_000;

/// The memory that is lent to a question.
///
/// A question about merge bases in a history of n commits needs n marks, 3 × n + 1,001 queue entries and 2 × n stack places,
/// and n + 1 answer slots beside them. What the slices hold does not matter, and nothing is promised of what they hold
/// after a question that was answered.
#[derive(Drop)]
pub struct Workspace<'a> {
    pub marks: &'a mut [u64],
    pub queue: &'a mut [Keyed],
    pub stack: &'a mut [usize],
}

/// How much is lent to a question: marks, queue entries, stack places, answer slots.
#[derive(Clone, Copy, PartialEq, Eq, Debug)]
pub(crate) struct Sizes {
    pub(crate) marks: usize,
    pub(crate) queue: usize,
    pub(crate) stack: usize,
    pub(crate) answers: usize,
}

impl Sizes {
    /// The sizes of what is lent.
    pub(crate) fn of(marks: &[u64], queue: &[Keyed], stack: &[usize], answers: &[Id]) -> Sizes
        ensures { lent result ≡ space_of (length marks.now) (length queue.now) (length stack.now) (length answers.now) }
    {
        Sizes {
            marks: marks.len(),
            queue: queue.len(),
            stack: stack.len(),
            answers: answers.len(),
        }
    }

    /// Refuses a question about merge bases with too many others, or in a history of too many commits for what is lent.
    pub(crate) fn suffice(self, count: usize, others: usize) -> Result<(), Refusal>
        requires { count ≤ 1000000 }
        ensures { result ≡ unless (denied (lent self) count others) tt }
    {
        if others > MAX_OTHERS {
            return Err(Refusal::TooManyOthers);
        }
        if self.marks < count
            || self.queue < 3 * count + 1_001
            || self.stack < 2 * count
            || self.answers < count + 1
        {
            return Err(Refusal::WorkspaceShort);
        }
        Ok(())
    }
}
