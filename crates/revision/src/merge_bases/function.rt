ghost use Rattle.std.specs.Prelude.{◌≡◌, length};
ghost use Rattle.ancestry.specs.Asking.{space_of, denied, Listed, Stays};
ghost use Rattle.ancestry.specs.Intake.{unless};
ghost use Rattle.ancestry.specs.Bases.{bases};
ghost use Rattle.ancestry.specs.Ids.{num, nums};
ghost use Rattle.history.specs.Unchanged.{Unchanged};

use crate::merge_bases::ids::contains;
use crate::merge_bases::search::Search;
use crate::workspace::{Sizes, Workspace};
use ancestry::{Id, Refusal};
use history::Reader;

// The history, `first` and the others go one by one, and the number of the answers beside the slots that are lent for them, as
// callers know this question.

/// All merge bases of `first` against `others`, best key first: the best of the commits that `first` and at least one other
/// reach. Their ids stand in the first of the `answers`, and their number is returned.
///
/// If `others` is empty or holds `first`, the answer is `first` alone, held or not. An id that is not held is passed over.
/// Slots beyond the answer stay. Refused are more than 1,000 others, and a workspace or answer slots too short for the
/// history; then nothing changes.
///
/// # Performance
///
/// Time grows with the commits and parents that are walked, times the logarithm of what waits, and the marks are cleared once.
/// The walk ends where all that waits is known to lie below a shared commit. Nothing more is walked where one base is left.
pub fn merge_base<H: Reader>(
    history: &mut H,
    first: Id,
    others: &[Id],
    space: Workspace<'_>,
    answers: &mut [Id],
) -> Result<usize, Refusal>
    requires { H.whole history.old }
    ensures same { Unchanged H.Reader history.old history.new }
    ensures answer { result ≡ unless (denied (space_of (length space.entry.marks.now) (length space.entry.queue.now) (length space.entry.stack.now) (length answers.old)) (length (H.commits history.old)) (length others.now)) (length (bases (H.commits history.old) (num first) (nums others.now))) }
    ensures slots { Listed (bases (H.commits history.old) (num first) (nums others.now)) answers.old result answers.new }
    ensures marks { Stays result space.entry.marks.now space.exit.0.now }
    ensures queue { Stays result space.entry.queue.now space.exit.1.0.now }
    ensures stack { Stays result space.entry.stack.now space.exit.1.1.0.now }
{
    // The slices go on one by one: of a workspace given on whole, the check would lose what its slices hold on refusal.
    let Workspace {
        marks,
        queue,
        stack,
    } = space;
    let count = history.count();
    let sizes = Sizes::of(marks, queue, stack, answers);
    sizes.suffice(count, others.len())?;
    if others.is_empty() || contains(others, first) {
        answers[0] = first;
        return Ok(1);
    }
    let mut search = Search::new(marks, queue, stack, count);
    Ok(search.find_bases(history, first, others, answers))
}
