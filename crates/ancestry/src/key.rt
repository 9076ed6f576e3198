ghost use Rattle.std.specs.Prelude.{◌≡◌};
ghost use Rattle.ancestry.specs.Keys.{rank};

/// The generation as keys compare it: an absent one counts as 4,294,967,295, by the rules, so a number stands for it.
#[tactic(auto, unfolding(crate::specs::Keys::rank))]
pub fn rank(generation: Option<u32>) -> u32
    ensures { result ≡ rank generation }
{
    generation.unwrap_or(u32::MAX)
}
