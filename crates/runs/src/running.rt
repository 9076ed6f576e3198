ghost use Rattle.std.specs.Prelude.{◌≡◌, IfOk, map, take, length};
ghost use Rattle.revision.specs.Owned.{sizes_of};
ghost use Rattle.runs.specs.Runs.{Ran};
ghost use Rattle.runs.specs.Promised.{Promised};
ghost use Rattle.runs.specs.Calls.{call_of, made, story};

use crate::call::{Call, Event};
use crate::stepping::step;
use history::History;
use revision::OwnedWorkspace;
use std::alloc::Global;

/// Want of memory ended a run: what had happened until then.
#[derive(Drop)]
pub struct Stopped<'a> {
    pub events: Vec<Event<'a>>,
}

/// Makes the calls in turn, and gives each with its answer. Where memory is wanting, the run ends before the next call.
pub fn run<'a, H: History>(
    heap: Global,
    history: &mut H,
    calls: &[Call<'a>],
    space: &mut OwnedWorkspace,
) -> Result<Vec<Event<'a>>, Stopped<'a>>
    requires { H.Reader.whole history.old }
    ensures whole { H.Reader.whole history.new }
    ensures capacity { H.Reader.room history.new ≡ H.Reader.room history.old }
    ensures sizes { sizes_of space.new ≡ sizes_of space.old }
    ensures calls { map call_of (made result) ≡ take (length (made result)) calls.now }
    ensures all { IfOk result (λ v. length (made result) ≡ length calls.now) }
    ensures ran { Ran (story H.Reader history.old (sizes_of space.old) (made result) history.new) }
    ensures promised { Promised (story H.Reader history.old (sizes_of space.old) (made result) history.new) }
{
    let mut events = Vec::new(heap);
    if events.reserve(calls.len()).is_err() {
        return Err(Stopped { events });
    }
    for call in calls {
        match step(heap, history, call, space) {
            Ok(event) => events.push_reserved(event),
            Err(_) => return Err(Stopped { events }),
        }
    }
    Ok(events)
}
