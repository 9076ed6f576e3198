ghost use Rattle.std.specs.Prelude.{◌≡◌, ℕ, map, IfOk};
ghost use Rattle.history.specs.Unchanged.{Unchanged};
ghost use Rattle.orders.specs.Fields.{via};
ghost use Rattle.orders.specs.Lines.{said};
ghost use Rattle.answering.specs.Answers.{place_in, Answered};

use crate::answer::Answer;
use history::{History, NewCommit, Reader};
use orders::{Offer, Order, Parent};
use std::alloc::{AllocError, Global};

/// Does what a line asks for, and answers it.
pub fn carry_out<H: History>(
    heap: Global,
    history: &mut H,
    order: Order,
) -> Result<Answer, AllocError>
    requires { H.Reader.whole history.old }
    ensures answer { Answered H.Reader history.old (said order) result history.new }
{
    match order {
        Order::Commit(offer) => take_in(heap, history, offer),
        Order::Name(_) => Ok(Answer::Kept),
        Order::Count => Ok(Answer::Number(history.count())),
        Order::Capacity => Ok(Answer::Number(history.capacity())),
        Order::Find(id) => Ok(Answer::Place(history.find(id))),
        Order::Read(place) => Ok(Answer::Commit(history.read(place))),
        Order::Parent(place, nth) => Ok(Answer::Place(history.parent(place, nth))),
        Order::Later => Ok(Answer::NotYet),
    }
}

// Offers the commit to the history.
fn take_in<H: History>(heap: Global, history: &mut H, offer: Offer) -> Result<Answer, AllocError>
    requires { H.Reader.whole history.old }
    ensures answer { Answered H.Reader history.old (said (Order.Commit offer)) result history.new }
{
    let places = parent_places(heap, history, offer.parents.as_slice())?;
    let commit = NewCommit {
        id: offer.id,
        generation: offer.generation,
        date: offer.date,
        parents: places.as_slice(),
    };
    Ok(Answer::Intake(history.intake(&commit)))
}

// The places of the parents that a line names.
fn parent_places<H: Reader>(
    heap: Global,
    history: &mut H,
    parents: &[Parent],
) -> Result<Vec<usize>, AllocError>
    requires { H.whole history.old }
    ensures same { Unchanged H.Reader history.old history.new }
    ensures answer { IfOk result (λ v. v.items ≡ map (place_in (H.commits history.old)) (map via parents.now)) }
{
    let mut places = Vec::new(heap);
    for parent in parents {
        places.push(parent_place(history, *parent))?;
    }
    Ok(places)
}

/// The place of a parent that a line names.
///
/// An id that is not held is given as a place that no history has, so that intake itself refuses it.
pub fn parent_place<H: Reader>(history: &mut H, parent: Parent) -> usize
    requires { H.whole history.old }
    ensures same { Unchanged H.Reader history.old history.new }
    ensures answer { result ≡ place_in (H.commits history.old) (via parent) }
{
    match parent {
        Parent::Place(place) => place,
        Parent::Named(id) => history.find(id).unwrap_or(usize::MAX),
    }
}
