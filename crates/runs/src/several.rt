ghost use Rattle.std.specs.Prelude.{◌≡◌, IfOk, IfErr, map, take, length};
ghost use Rattle.revision.specs.Owned.{sizes_of};
ghost use Rattle.runs.specs.Several.{AllWhole, EachRan, addressed_of, noted, Halts};

use crate::call::{Call, Event};
use crate::stepping::step;
use history::History;
use revision::OwnedWorkspace;
use std::alloc::Global;

/// A call on one of several histories, which is given by its number, from 0.
#[derive(Clone, Copy)]
pub struct Addressed<'a> {
    pub to: usize,
    pub call: Call<'a>,
}

/// A call on one of several histories, with its answer.
#[derive(Drop)]
pub struct Noted<'a> {
    pub to: usize,
    pub event: Event<'a>,
}

/// Why a run on several histories ended before its next call.
#[derive(Clone, Copy, PartialEq, Eq, Debug)]
pub enum Why {
    /// Memory was wanting.
    Memory,
    /// There is no history of that number.
    NoSuchHistory,
}

/// What ended a run on several histories, and what had happened until then.
#[derive(Drop)]
pub struct Halted<'a> {
    pub why: Why,
    pub events: Vec<Noted<'a>>,
}

/// Makes the calls in turn, each on the history that it is addressed to, and gives each with its answer. No call touches another
/// history. Where memory is wanting, or a call is addressed to no history, the run ends before that call.
pub fn run_all<'a, H: History>(
    heap: Global,
    histories: &mut [H],
    calls: &[Addressed<'a>],
    space: &mut OwnedWorkspace,
) -> Result<Vec<Noted<'a>>, Halted<'a>>
    requires { AllWhole H.Reader histories.old }
    ensures number { length histories.new ≡ length histories.old }
    ensures sizes { sizes_of space.new ≡ sizes_of space.old }
    ensures calls { map addressed_of (noted result) ≡ take (length (noted result)) calls.now }
    ensures all { IfOk result (λ v. length (noted result) ≡ length calls.now) }
    ensures why { IfErr result (λ f. Halts (length histories.old) calls.now f) }
    ensures each { EachRan H.Reader (sizes_of space.old) histories.old (noted result) histories.new }
{
    let mut events = Vec::new(heap);
    if events.reserve(calls.len()).is_err() {
        return Err(Halted {
            why: Why::Memory,
            events,
        });
    }
    for addressed in calls {
        let to = addressed.to;
        if to >= histories.len() {
            return Err(Halted {
                why: Why::NoSuchHistory,
                events,
            });
        }
        match step(heap, &mut histories[to], &addressed.call, space) {
            Ok(event) => events.push_reserved(Noted { to, event }),
            Err(_) => {
                return Err(Halted {
                    why: Why::Memory,
                    events,
                });
            }
        }
    }
    Ok(events)
}
