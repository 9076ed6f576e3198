// Where painting starts.
ghost use Rattle.std.specs.Prelude.{◌≡◌, ℕ, List, Some, Option};
ghost use Rattle.ancestry.specs.Commits.{Commit, place_of};
ghost use Rattle.ancestry.specs.Ids.{num};
ghost use Rattle.history.specs.Unchanged.{Unchanged};

use ancestry::Id;
use history::Reader;

/// What names a place: the id of its commit, or the place itself.
pub(crate) trait Seed: Copy {
    /// The place that is named among the commits, if there is one.
    ghost place_in: { List Commit → Self → Option ℕ };

    /// The place that is named, or none.
    fn place<H: Reader>(self, history: &mut H) -> Option<usize>
        requires { H.whole history.old }
        ensures same { Unchanged H.Reader history.old history.new }
        ensures answer { result ≡ place_in (H.commits history.old) self };
}

impl Seed for Id {
    ghost place_in = { λ H i. place_of H (num i) };

    fn place<H: Reader>(self, history: &mut H) -> Option<usize> {
        history.find(self)
    }
}

impl Seed for usize {
    ghost place_in = { λ H p. Some p };

    fn place<H: Reader>(self, _history: &mut H) -> Option<usize> {
        Some(self)
    }
}
