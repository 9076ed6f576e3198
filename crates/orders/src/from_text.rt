ghost use Rattle.std.specs.Prelude.{◌≡◌, ℕ, List, Option};
ghost use Rattle.std.specs.Option.{option_map};
ghost use Rattle.ancestry.specs.Ids.{num};
ghost use Rattle.ancestry.specs.Numbers.{from_hex};

use ancestry::Id;

/// A value that the text of a field can spell.
pub(crate) trait FromText: Sized {
    // What clauses take a value for.
    ghost Meaning: { Type 0 };

    // What they take this value for.
    ghost means: { Self → Meaning };

    // What they take the value for that the text spells, or none.
    ghost spells: { List ℕ → Option Meaning };

    /// The value that the text spells, or none.
    fn from_text(text: &[u8]) -> Option<Self>
        ensures { option_map means result ≡ spells text.now };
}

/// An id: 40 hexadecimal digits.
impl FromText for Id {
    ghost Meaning = { ℕ };

    ghost means = { num };

    ghost spells = { from_hex };

    fn from_text(text: &[u8]) -> Option<Id> {
        Id::from_hex(text)
    }
}
