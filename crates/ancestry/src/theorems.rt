// The theorems about the definitions, named by the contracts of two functions, so that the check asks for their proofs.
ghost use Rattle.ancestry.specs.Cases.{Table};
ghost use Rattle.ancestry.specs.Theorems.{IdLaw, HexLaw, OrderLaw, PlaceLaw, ReachingLaw, BestLaw, SwapLaw, JoinLaw, RefusalLaw, GrowthLaw, IntakeLaw, UnchangedLaw, NearestLaw};

/// The table of misleading histories: every question has the answer that stands beside it.
pub fn table_stands()
    ensures { Table }
{}

/// The laws of ids, of reaching, of best sets and merge bases, of growth, and of names.
pub fn laws_stand()
    ensures ids { IdLaw }
    ensures letters { HexLaw }
    ensures compared { OrderLaw }
    ensures places { PlaceLaw }
    ensures reaching { ReachingLaw }
    ensures best { BestLaw }
    ensures swapped { SwapLaw }
    ensures joined { JoinLaw }
    ensures refusal { RefusalLaw }
    ensures growth { GrowthLaw }
    ensures intake { IntakeLaw }
    ensures unchanged { UnchangedLaw }
    ensures nearest { NearestLaw }
{}
