ghost use Rattle.std.specs.Prelude.{◌≡◌, Some};
ghost use Rattle.ancestry.specs.Intake.{number, words, printed};

use std::fmt;

/// Why a call is refused. Where several refusals apply, the one of lowest number is given, and nothing lent or held changes.
#[derive(Clone, Copy, PartialEq, Eq, Debug)]
pub enum Refusal {
    /// The date is not from -17,179,869,184 to 17,179,869,183.
    DateOutOfRange = 11,
    /// The generation is above 1,073,741,823.
    GenerationTooHigh = 12,
    /// There are more than 16 parents.
    TooManyParents = 13,
    /// A commit with this id is held.
    IdHeld = 14,
    /// A parent is no place in the history.
    NoSuchParent = 15,
    /// A parent's generation exceeds the commit's, absent counting as 4,294,967,295.
    GenerationRises = 16,
    /// The count of commits equals the capacity.
    Full = 17,
    /// There are more than 1,000 others.
    TooManyOthers = 31,
    /// A lent slice is shorter than the question needs, or a queue is full.
    WorkspaceShort = 32,
}

impl Refusal {
    /// The number by which people know the refusal.
    pub fn number(self) -> u8
        ensures { result ≡ number self }
    {
        self as u8
    }

    // What the refusal says to people.
    fn words(self) -> &'static str
        ensures { result.now ≡ words self }
    {
        match self {
            Refusal::DateOutOfRange => "the date is outside -17179869184 to 17179869183",
            Refusal::GenerationTooHigh => "the generation is above 1073741823",
            Refusal::TooManyParents => "there are more than 16 parents",
            Refusal::IdHeld => "the id is already held",
            Refusal::NoSuchParent => "a parent is not a place in the history",
            Refusal::GenerationRises => "a parent's generation exceeds the commit's",
            Refusal::Full => "the history is full",
            Refusal::TooManyOthers => "there are more than 1000 others",
            Refusal::WorkspaceShort => "the workspace is short",
        }
    }
}

impl fmt::Display for Refusal {
    ghost output = { λ f. Some (printed f) };

    fn fmt<W: fmt::Write>(&self, f: &mut fmt::Formatter<W>) -> fmt::Result {
        let number = self.number();
        let words = self.words();
        write!(f, "refused {number}: {words}")
    }
}
