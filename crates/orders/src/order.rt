use crate::parent::Parent;
use ancestry::Id;

/// A commit that a line offers to the history.
#[derive(Drop, PartialEq, Eq, Debug)]
pub struct Offer {
    pub id: Id,
    pub generation: Option<u32>,
    pub date: i64,
    pub parents: Vec<Parent>,
}

/// What a line asks for.
#[derive(Drop, PartialEq, Eq, Debug)]
pub enum Order {
    /// To take the commit in.
    Commit(Offer),
    /// To keep a name for the commit with this id.
    Name(Id),
    /// How many commits are held.
    Count,
    /// How many commits can be held.
    Capacity,
    /// The place of an id.
    Find(Id),
    /// The commit at a place.
    Read(usize),
    /// The place of a parent, by its child's place and its number, from 0.
    Parent(usize, usize),
    /// A question of merge bases or of names, which is not answered yet.
    Later,
}
