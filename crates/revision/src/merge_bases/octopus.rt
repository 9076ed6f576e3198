ghost use Rattle.std.specs.Prelude.{◌≡◌, length};
ghost use Rattle.ancestry.specs.Asking.{space_of, denied, numbered, first_slot, Stays};
ghost use Rattle.ancestry.specs.Intake.{unless};
ghost use Rattle.ancestry.specs.Bases.{octopus};
ghost use Rattle.ancestry.specs.Ids.{num, nums};
ghost use Rattle.history.specs.Unchanged.{Unchanged};

use crate::merge_bases::ids::all_same;
use crate::merge_bases::search::Search;
use crate::workspace::{Sizes, Workspace};
use ancestry::{Id, Refusal};
use history::Reader;

/// The best commit that `first` and every other reach: the first of them, best key first, or none.
///
/// If no other differs from `first`, it is `first`, held or not. An id that is not held reaches nothing. The commit also
/// stands in the first answer slot; all other slots stay, and all do where there is none. Refusals are those of
/// [`merge_base`](crate::merge_base).
///
/// # Performance
///
/// One more commit at a time is painted against all bases of those before it, so the marks are cleared once for each other.
pub fn octopus<H: Reader>(
    history: &mut H,
    first: Id,
    others: &[Id],
    space: Workspace<'_>,
    answers: &mut [Id],
) -> Result<Option<Id>, Refusal>
    requires { H.whole history.old }
    ensures same { Unchanged H.Reader history.old history.new }
    ensures answer { numbered result ≡ unless (denied (space_of (length space.entry.marks.now) (length space.entry.queue.now) (length space.entry.stack.now) (length answers.old)) (length (H.commits history.old)) (length others.now)) (octopus (H.commits history.old) (num first) (nums others.now)) }
    ensures slots { answers.new ≡ first_slot answers.old result }
    ensures marks { Stays result space.entry.marks.now space.exit.0.now }
    ensures queue { Stays result space.entry.queue.now space.exit.1.0.now }
    ensures stack { Stays result space.entry.stack.now space.exit.1.1.0.now }
{
    // The slices go on one by one: of a workspace given on whole, the check would lose what its slices hold on refusal.
    let Workspace {
        marks,
        queue,
        stack,
    } = space;
    let count = history.count();
    let sizes = Sizes::of(marks, queue, stack, answers);
    sizes.suffice(count, others.len())?;
    if all_same(others, first) {
        answers[0] = first;
        return Ok(Some(first));
    }
    let mut search = Search::new(marks, queue, stack, count);
    let Some(id) = search.find_common(history, first, others) else {
        return Ok(None);
    };
    answers[0] = id;
    Ok(Some(id))
}
