ghost use Rattle.std.specs.Prelude.{◌≡◌, Bool, true, false};

/// What a queue asks of its entries: a total order, by key and id.
pub trait Entry: Copy {
    /// The first of the two leaves the queue before the second.
    ghost better: { Self → Self → Bool };

    /// The two are equal in key and id.
    ghost alike: { Self → Self → Type 0 };

    /// Whether the entry leaves the queue before the other.
    fn is_better(&self, other: &Self) -> bool
        ensures { result ≡ better self.now other.now };

    ghost transitive: { (x y z : Self) → better x y ≡ true → better y z ≡ true → better x z ≡ true };

    /// Never true both ways.
    ghost oneway: { (x y : Self) → better x y ≡ true → better y x ≡ false };

    /// Where neither is better, they are equal in key and id.
    ghost total: { (x y : Self) → better x y ≡ false → better y x ≡ false → alike x y };

    /// Those that are compare alike with every third.
    ghost bykey: { (x y z : Self) → alike x y → better x z ≡ better y z };
}
