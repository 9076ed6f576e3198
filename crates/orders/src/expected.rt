ghost use Rattle.std.specs.Prelude.{◌≡◌, Some};
ghost use Rattle.orders.specs.Fields.{words_for};

use std::fmt;

/// What a field of a line was expected to be.
#[derive(Clone, Copy, PartialEq, Eq, Debug)]
pub enum Expected {
    AWord,
    AnId,
    AGeneration,
    ADate,
    AParent,
    AName,
    APlace,
    ANumber,
    AnOption,
    TheEnd,
}

impl Expected {
    /// The plain words for it.
    pub fn words(self) -> &'static str
        ensures { result.now ≡ words_for self }
    {
        match self {
            Expected::AWord =>
                "commit, name, count, capacity, find, read, parent, merge-base, octopus or describe",
            Expected::AnId => "an id of 40 hexadecimal digits",
            Expected::AGeneration => "a generation, which is a number or -",
            Expected::ADate => "a date, which is a number, with - before it if negative",
            Expected::AParent =>
                "a parent, which is an id of 40 hexadecimal digits, or @ and a place",
            Expected::AName => "a name",
            Expected::APlace => "a place, which is a number",
            Expected::ANumber => "a number",
            Expected::AnOption => "--candidates=N, --always or --first-parent",
            Expected::TheEnd => "the end of the line",
        }
    }
}

impl fmt::Display for Expected {
    ghost output = { λ e. Some (words_for e) };

    fn fmt<W: fmt::Write>(&self, f: &mut fmt::Formatter<W>) -> fmt::Result {
        f.write_str(self.words())
    }
}

/// Why a line is malformed: the first field, by its number from 1, that is not what was expected there.
#[derive(Clone, Copy, PartialEq, Eq, Debug)]
pub struct Malformed {
    pub field: usize,
    pub expected: Expected,
}
