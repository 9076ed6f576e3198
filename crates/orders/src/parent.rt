ghost use Rattle.orders.specs.Fields.{Via, via, parent_of};

use crate::from_text::FromText;
use crate::number::decimal;
use ancestry::Id;
use lines::starts_with;

/// A parent as a line names it.
#[derive(Clone, Copy, PartialEq, Eq, Debug)]
pub enum Parent {
    /// By its place.
    Place(usize),
    /// By its id.
    Named(Id),
}

/// A parent: `@` and a place, or an id.
impl FromText for Parent {
    ghost Meaning = { Via };

    ghost means = { via };

    ghost spells = { parent_of };

    fn from_text(text: &[u8]) -> Option<Parent> {
        match text {
            [_, place @ ..] if starts_with(text, b'@') => {
                usize::from_text(place).map(Parent::Place)
            }
            _ => Id::from_text(text).map(Parent::Named),
        }
    }
}
