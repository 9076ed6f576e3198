// What is known of a place while the history is painted. A caller lends plain words of 64 bits for the marks, so they are
// numbers in memory, and flags everywhere else: they are read and written here alone.
ghost use Rattle.std.specs.Prelude.{◌≡◌, ◌<◌, length, if◌then◌else◌, slice_set};
ghost use Rattle.painting.specs.Marks.{mark, covers, joined, told, settled, alive, newly, left, seen};
ghost use Rattle.painting.specs.Bits.{bits, of_bits, flags};

const FIRST: u64 = 1;

const OTHERS: u64 = 2;

const STALE: u64 = 4;

const RESULT: u64 = 8;

const WAITING: u64 = 16;

const MET: u64 = 32;

/// The flags of a commit.
#[derive(Clone, Copy, PartialEq, Eq, Debug)]
pub struct Mark {
    /// The first commit reaches it.
    pub first: bool,
    /// One of the others reaches it.
    pub others: bool,
    /// A shared commit reaches one of its children.
    pub stale: bool,
    /// It is noted among the results.
    pub result: bool,
    /// It waits in the queue.
    pub waiting: bool,
    /// A result reaches one of its children.
    pub met: bool,
}

/// What a commit tells its parents.
#[derive(Clone, Copy, PartialEq, Eq, Debug)]
pub struct Told {
    pub first: bool,
    pub others: bool,
    pub stale: bool,
}

/// The mark of a place.
pub(crate) fn get(marks: &[u64], place: usize) -> Mark
    requires { place < length marks.now }
    ensures { result ≡ mark (flags marks.now) place }
{
    Mark::from(marks[place])
}

/// Writes the mark of a place.
pub(crate) fn put(marks: &mut [u64], place: usize, mark: Mark)
    requires { place < length marks.old }
    ensures { flags marks.new ≡ slice_set (flags marks.old) place mark }
{
    marks[place] = u64::from(mark);
}

fn bit(has: bool, flag: u64) -> u64
    ensures { result ≡ (if has then flag else 0) }
{
    if has { flag } else { 0 }
}

impl From<u64> for Mark {
    ghost from_gives = { λ n m. m ≡ of_bits n };

    fn from(bits: u64) -> Mark {
        Mark {
            first: bits & FIRST != 0,
            others: bits & OTHERS != 0,
            stale: bits & STALE != 0,
            result: bits & RESULT != 0,
            waiting: bits & WAITING != 0,
            met: bits & MET != 0,
        }
    }
}

impl From<Mark> for u64 {
    ghost from_gives = { λ m n. n ≡ bits m };

    fn from(mark: Mark) -> u64 {
        bit(mark.first, FIRST)
            | bit(mark.others, OTHERS)
            | bit(mark.stale, STALE)
            | bit(mark.result, RESULT)
            | bit(mark.waiting, WAITING)
            | bit(mark.met, MET)
    }
}

impl Mark {
    /// Whether the mark has all that is told.
    pub(crate) fn covers(self, told: Told) -> bool
        ensures { result ≡ covers self told }
    {
        (self.first | !told.first) & (self.others | !told.others) & (self.stale | !told.stale)
    }

    /// The mark with what is told; its commit waits.
    pub(crate) fn joined(self, told: Told) -> Mark
        ensures { result ≡ joined self told }
    {
        Mark {
            first: self.first | told.first,
            others: self.others | told.others,
            stale: self.stale | told.stale,
            waiting: true,
            ..self
        }
    }

    /// What a commit with this mark tells its parents.
    pub(crate) fn passed_on(self) -> Told
        ensures { result ≡ told self }
    {
        Told {
            first: self.first,
            others: self.others,
            stale: self.stale | self.first & self.others,
        }
    }

    /// Whether a commit with this mark, once taken, is a result that was not noted before.
    pub(crate) fn is_newly_result(self) -> bool
        ensures { result ≡ newly self }
    {
        self.first & self.others & !self.stale & !self.result
    }

    /// The mark of a commit that was taken.
    pub(crate) fn settled(self) -> Mark
        ensures { result ≡ settled self }
    {
        Mark {
            result: self.result | self.is_newly_result(),
            waiting: false,
            ..self
        }
    }

    /// Whether the commit waits and is not stale.
    pub(crate) fn is_alive(self) -> bool
        ensures { result ≡ alive self }
    {
        self.waiting & !self.stale
    }

    /// The mark of a commit that was met on the way down from the results.
    pub(crate) fn seen(self) -> Mark
        ensures { result ≡ seen self }
    {
        Mark { met: true, ..self }
    }

    /// Whether no result is known that reaches a child of the commit.
    pub(crate) fn is_left(self) -> bool
        ensures { result ≡ left self }
    {
        !self.stale & !self.met
    }
}
