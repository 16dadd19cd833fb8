// A lawful order on one kind of key.
ghost use Rattle.std.specs.Prelude.{◌≡◌};
ghost use Rattle.std.specs.declared.cmp.Ordering.TheVariants.{Less, Equal};
ghost use Rattle.std.specs.declared.cmp.Ordering.{Ordering};
ghost use Rattle.std.specs.Ordering.{ordering_reverse};

use std::cmp::Ordering;

pub trait Order: Copy {
    // How the first key stands to the second: below, same or above.
    ghost rank: { Self → Self → Ordering };

    fn compare(self, other: Self) -> Ordering
        ensures { result ≡ rank self other };

    // Exchanging the keys exchanges below and above.
    ghost swaps: { (a b : Self) → rank b a ≡ ordering_reverse (rank a b) };

    // Below is transitive.
    ghost chains: { (a b c : Self) → rank a b ≡ Less → rank b c ≡ Less → rank a c ≡ Less };

    // Same holds only of equal keys.
    ghost same: { (a b : Self) → rank a b ≡ Equal → a ≡ b };
}
