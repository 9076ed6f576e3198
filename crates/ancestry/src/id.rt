ghost use Rattle.std.specs.Prelude.{◌≡◌, ℕ, ◌+◌, ◌^◌, ◌<◌, ◌≤◌, length, ◌==◌, nat_lt, nat_eq};
ghost use Rattle.std.specs.Ordering.{MatchOrdering, nat_cmp, as_partial_cmp};
ghost use Rattle.std.specs.Cmp.{partial_order_from_own_ties};
ghost use Rattle.std.specs.Cmp.Rules.{comparing};
ghost use Rattle.std.proofs.Common.{rules};
ghost use Rattle.ancestry.specs.Numbers.{spelled, digits, part};
ghost use Rattle.ancestry.specs.Ids.{num, same_id, id_cmp, same_words, words_cmp, words, Words};

use std::cmp::Ordering;

/// The id of a commit: twenty bytes, held as five words of 32 bits, the most significant byte first.
///
/// Contracts speak of its number, `num`. Ids are equal and compare from their first byte, which is by their words and by their
/// numbers alike: equality and order are written out, since derived ones would promise it of the words alone.
#[derive(Clone, Copy, Default, Debug)]
pub struct Id {
    pub first: u32,
    pub second: u32,
    pub third: u32,
    pub fourth: u32,
    pub fifth: u32,
}

impl PartialEq for Id {
    ghost eq = { same_words };

    ghost laws = { Prim.search (comparing, rules) };

    fn eq(&self, other: &Id) -> bool
        ensures words { result ≡ same_words self.now other.now }
        ensures number { result ≡ same_id self.now other.now }
    {
        self.as_words() == other.as_words()
    }
}

impl Eq for Id {
    ghost laws = { Prim.search (comparing, rules) };
}

impl Ord for Id {
    ghost cmp = { words_cmp };

    ghost total = { Prim.search (comparing, rules) };

    ghost matches_partial_cmp = { Prim.search (comparing, rules) };

    ghost matches_eq = { Prim.search (comparing, rules) };

    fn cmp(&self, other: &Id) -> Ordering
        ensures words { result ≡ words_cmp self.now other.now }
        ensures number { result ≡ id_cmp self.now other.now }
    {
        self.as_words().cmp(&other.as_words())
    }
}

impl PartialOrd for Id {
    ghost partial_cmp = { as_partial_cmp words_cmp };

    ghost laws = { partial_order_from_own_ties (Prim.search (comparing, rules)) (Prim.search (comparing, rules)) };

    fn partial_cmp(&self, other: &Id) -> Option<Ordering>
        ensures words { result ≡ as_partial_cmp words_cmp self.now other.now }
        ensures number { result ≡ as_partial_cmp id_cmp self.now other.now }
    {
        Some(self.cmp(other))
    }
}

// Conversions have the names that the standard library gives such ones: a `From` would not say whether bytes or letters are
// meant.
impl Id {
    /// The id whose words of 32 bits these are, the most significant first.
    pub fn from_words(words: [u32; 5]) -> Id
        ensures { num result ≡ spelled 4294967296 words }
    {
        let [first, second, third, fourth, fifth] = words;
        Id {
            first,
            second,
            third,
            fourth,
            fifth,
        }
    }

    /// The words of the id.
    pub fn as_words(&self) -> [u32; 5]
        ensures own { result ≡ words self.now }
        ensures words { result ≡ digits 4294967296 5 (num self.now) }
        ensures back { spelled 4294967296 result ≡ num self.now }
        ensures fits { Words self.now }
        ensures bits { num self.now < 2 ^ 160 }
    {
        self.in_words()
    }

    // The same of an id by value, of whose words the check knows that they have 32 bits.
    fn in_words(self) -> [u32; 5]
        ensures own { result ≡ words self }
        ensures fits { Words self }
    {
        [self.first, self.second, self.third, self.fourth, self.fifth]
    }

    /// The id whose bytes these are.
    pub fn from_bytes(bytes: [u8; 20]) -> Id
        ensures { num result ≡ spelled 256 bytes }
    {
        Id {
            first: word(&bytes, 0),
            second: word(&bytes, 4),
            third: word(&bytes, 8),
            fourth: word(&bytes, 12),
            fifth: word(&bytes, 16),
        }
    }

    /// The bytes of the id.
    pub fn to_bytes(self) -> [u8; 20]
        ensures bytes { result ≡ digits 256 20 (num self) }
        ensures back { spelled 256 result ≡ num self }
        ensures bits { num self < 2 ^ 160 }
    {
        // Written out: a loop over words and bytes at once would count both by hand.
        let a = self.first.to_be_bytes();
        let b = self.second.to_be_bytes();
        let c = self.third.to_be_bytes();
        let d = self.fourth.to_be_bytes();
        let e = self.fifth.to_be_bytes();
        [
            a[0], a[1], a[2], a[3], b[0], b[1], b[2], b[3], c[0], c[1], c[2], c[3], d[0], d[1],
            d[2], d[3], e[0], e[1], e[2], e[3],
        ]
    }

    // `==` and `cmp` say the same, and `<` says it of the words: the three are public, and promise it by name.

    /// Whether the two ids are one.
    pub fn same(self, other: Id) -> bool
        ensures { result ≡ (num self == num other) }
    {
        self == other
    }

    /// Whether the id comes before the other, from the first byte.
    pub fn lower(self, other: Id) -> bool
        ensures { result ≡ nat_lt (num self) (num other) }
    {
        self < other
    }

    /// How the id compares with the other, from the first byte.
    pub fn order(self, other: Id) -> Ordering
        ensures { MatchOrdering result (num self < num other) (self ≡ other) (num other < num self) }
    {
        self.cmp(&other)
    }
}

// The word of four bytes from `at` on.
fn word(bytes: &[u8], at: usize) -> u32
    requires { at + 4 ≤ length bytes.now }
    ensures { result ≡ spelled 256 (part bytes.now at 4) }
{
    u32::from_be_bytes([bytes[at], bytes[at + 1], bytes[at + 2], bytes[at + 3]])
}
