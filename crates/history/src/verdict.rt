ghost use Rattle.std.specs.Prelude.{◌≡◌, ℕ, length, nat_le};
ghost use Rattle.std.specs.List.{list_any};
ghost use Rattle.ancestry.specs.Sets.{any};
ghost use Rattle.ancestry.specs.Intake.{in_range, too_high, exceeds, refusal, unless};
ghost use Rattle.history.specs.Meaning.{offered};
ghost use Rattle.history.specs.Unchanged.{Unchanged};

use crate::grow::NewCommit;
use crate::reader::Reader;
use ancestry::{Refusal, rank};

const OLDEST: i64 = -17_179_869_184;

const NEWEST: i64 = 17_179_869_183;

const HIGHEST: u32 = 1_073_741_823;

const MAX_PARENTS: usize = 16;

/// Whether the history would take the commit in, or why not: by the lowest refusal that applies. Nothing is taken in.
///
/// Every intake asks this first, whatever the history.
pub fn admits<H: Reader>(history: &mut H, commit: &NewCommit<'_>) -> Result<(), Refusal>
    requires { H.whole history.old }
    ensures same { Unchanged H.Reader history.old history.new }
    ensures answer { result ≡ unless (refusal (H.room history.old) (H.commits history.old) (offered commit.now)) tt }
{
    if !in_range(commit.date) {
        return Err(Refusal::DateOutOfRange);
    }
    if too_high(commit.generation) {
        return Err(Refusal::GenerationTooHigh);
    }
    if commit.parents.len() > MAX_PARENTS {
        return Err(Refusal::TooManyParents);
    }
    if history.find(commit.id).is_some() {
        return Err(Refusal::IdHeld);
    }
    if no_such(history, commit.parents) {
        return Err(Refusal::NoSuchParent);
    }
    if rises(history, rank(commit.generation), commit.parents) {
        return Err(Refusal::GenerationRises);
    }
    let count = history.count();
    if count == history.capacity() {
        return Err(Refusal::Full);
    }
    Ok(())
}

#[tactic(auto, unfolding(ancestry::specs::Intake::in_range))]
fn in_range(date: i64) -> bool
    ensures { result ≡ in_range date }
{
    (OLDEST..=NEWEST).contains(&date)
}

#[tactic(auto, unfolding(ancestry::specs::Intake::too_high))]
fn too_high(generation: Option<u32>) -> bool
    ensures { result ≡ too_high generation }
{
    generation.is_some_and(|g| g > HIGHEST)
}

// Whether a parent is no place in the history.
fn no_such<H: Reader>(history: &mut H, parents: &[usize]) -> bool
    requires { H.whole history.old }
    ensures same { Unchanged H.Reader history.old history.new }
    ensures answer { result ≡ list_any (λ p. nat_le (length (H.commits history.old)) p) parents.now }
{
    let count = history.count();
    parents.iter().any(|place| count <= *place)
}

// Whether the generation of a parent that is a place exceeds this one. It is no `any`: of a closure that changes the history the
// check would know nothing afterwards.
fn rises<H: Reader>(history: &mut H, generation: u32, parents: &[usize]) -> bool
    requires { H.whole history.old }
    ensures same { Unchanged H.Reader history.old history.new }
    ensures answer { result ≡ any (exceeds (H.commits history.old) generation) parents.now }
{
    for place in parents {
        if exceeded(history, *place, generation) {
            return true;
        }
    }
    false
}

// Whether the place holds a commit whose generation exceeds this one.
fn exceeded<H: Reader>(history: &mut H, place: usize, generation: u32) -> bool
    requires { H.whole history.old }
    ensures same { Unchanged H.Reader history.old history.new }
    ensures answer { result ≡ exceeds (H.commits history.old) generation place }
{
    match history.read(place) {
        Some(entry) => rank(entry.generation) > generation,
        None => false,
    }
}
