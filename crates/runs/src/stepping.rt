ghost use Rattle.std.specs.Prelude.{◌≡◌, ◌++◌, IfOk, MatchResult, length};
ghost use Rattle.ancestry.specs.Bases.{bases};
ghost use Rattle.ancestry.specs.Asking.{denied};
ghost use Rattle.ancestry.specs.Ids.{num, nums};
ghost use Rattle.ancestry.specs.Intake.{unless};
ghost use Rattle.history.specs.Unchanged.{Unchanged};
ghost use Rattle.revision.specs.Owned.{sizes_of};
ghost use Rattle.runs.specs.Runs.{Right, gained};
ghost use Rattle.runs.specs.Calls.{event_of, call_of, bases_of};

use crate::call::{Call, Event};
use ancestry::{Id, Refusal};
use history::{History, NewCommit};
use revision::OwnedWorkspace;
use std::alloc::{AllocError, Global};

/// Makes one call, and gives it with its answer. Where memory is wanting, nothing has changed.
pub(crate) fn step<'a, H: History>(
    heap: Global,
    history: &mut H,
    call: &Call<'a>,
    space: &mut OwnedWorkspace,
) -> Result<Event<'a>, AllocError>
    requires { H.Reader.whole history.old }
    ensures whole { H.Reader.whole history.new }
    ensures capacity { H.Reader.room history.new ≡ H.Reader.room history.old }
    ensures sizes { sizes_of space.new ≡ sizes_of space.old }
    ensures list { MatchResult result (λ e. H.Reader.commits history.new ≡ H.Reader.commits history.old ++ gained (event_of (sizes_of space.old) e)) (λ f. H.Reader.commits history.new ≡ H.Reader.commits history.old) }
    ensures right { IfOk result (λ e. Right (H.Reader.room history.old) (H.Reader.commits history.old) (event_of (sizes_of space.old) e)) }
    ensures call { IfOk result (λ e. call_of e ≡ call.now) }
{
    Ok(match *call {
        Call::Intake(
            NewCommit {
                id,
                generation,
                date,
                parents,
            },
        ) => {
            let commit = NewCommit {
                id,
                generation,
                date,
                parents,
            };
            let answer = history.intake(&commit);
            Event::Intake(commit, answer)
        }
        Call::Count => Event::Count(history.count()),
        Call::Capacity => Event::Capacity(history.capacity()),
        Call::Find(id) => Event::Find(id, history.find(id)),
        Call::Read(place) => Event::Read(place, history.read(place)),
        Call::Parent(place, n) => Event::Parent(place, n, history.parent(place, n)),
        Call::MergeBase(first, others) => {
            Event::MergeBase(first, others, ask(heap, history, first, others, space)?)
        }
        Call::Octopus(first, others) => {
            Event::Octopus(first, others, space.octopus(history, first, others))
        }
    })
}

// All merge bases, in a list of their own.
fn ask<H: History>(
    heap: Global,
    history: &mut H,
    first: Id,
    others: &[Id],
    space: &mut OwnedWorkspace,
) -> Result<Result<Vec<Id>, Refusal>, AllocError>
    requires { H.Reader.whole history.old }
    ensures same { Unchanged H.Reader history.old history.new }
    ensures sizes { sizes_of space.new ≡ sizes_of space.old }
    ensures answer { IfOk result (λ r. bases_of r ≡ unless (denied (sizes_of space.old) (length (H.Reader.commits history.old)) (length others.now)) (bases (H.Reader.commits history.old) (num first) (nums others.now))) }
{
    Ok(match space.merge_base(history, first, others) {
        Ok(count) => Ok(Vec::from_slice(heap, &space.answers()[0..count])?),
        Err(refusal) => Err(refusal),
    })
}
