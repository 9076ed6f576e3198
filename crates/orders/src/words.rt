ghost use Rattle.orders.specs.Words.{word_of};
ghost use Rattle.orders.specs.declared.words.Word.{Word};

use crate::from_text::FromText;

/// The first word of a line.
#[derive(Clone, Copy, PartialEq, Eq, Debug)]
pub enum Word {
    Commit,
    Name,
    Count,
    Capacity,
    Find,
    Read,
    Parent,
    MergeBase,
    Octopus,
    Describe,
}

impl FromText for Word {
    ghost Meaning = { Word };

    ghost means = { λ w. w };

    ghost spells = { word_of };

    fn from_text(text: &[u8]) -> Option<Word> {
        match text {
            b"commit" => Some(Word::Commit),
            b"name" => Some(Word::Name),
            b"count" => Some(Word::Count),
            b"capacity" => Some(Word::Capacity),
            b"find" => Some(Word::Find),
            b"read" => Some(Word::Read),
            b"parent" => Some(Word::Parent),
            b"merge-base" => Some(Word::MergeBase),
            b"octopus" => Some(Word::Octopus),
            b"describe" => Some(Word::Describe),
            _ => None,
        }
    }
}
