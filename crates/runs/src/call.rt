use ancestry::{Id, Refusal};
use history::{Entry, NewCommit};

/// A call on a history.
#[derive(Clone, Copy)]
pub enum Call<'a> {
    /// To take a commit in.
    Intake(NewCommit<'a>),
    /// How many commits are held.
    Count,
    /// How many commits can be held.
    Capacity,
    /// The place of an id.
    Find(Id),
    /// The commit at a place.
    Read(usize),
    /// The place of a parent, by its child's place and its number, from 0.
    Parent(usize, usize),
    /// All merge bases of a commit against others.
    MergeBase(Id, &'a [Id]),
    /// The best commit that a commit and all others reach.
    Octopus(Id, &'a [Id]),
}

/// A call with its answer.
#[derive(Drop)]
pub enum Event<'a> {
    Intake(NewCommit<'a>, Result<usize, Refusal>),
    Count(usize),
    Capacity(usize),
    Find(Id, Option<usize>),
    Read(usize, Option<Entry>),
    Parent(usize, usize, Option<usize>),
    MergeBase(Id, &'a [Id], Result<Vec<Id>, Refusal>),
    Octopus(Id, &'a [Id], Result<Option<Id>, Refusal>),
}
