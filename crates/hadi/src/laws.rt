//! Laws on HADI, each the contract of a function that does nothing.

ghost use Rattle.std.specs.Prelude.{◌≡◌, ◌∷◌, [], ℕ, true, false};
ghost use Rattle.gimv_core.specs.Laws.{IsLawful};
ghost use Rattle.graph.specs.Entries.{hadi_entries, plain_entry};
ghost use Rattle.graph.specs.Examples.{from_to};
ghost use Rattle.hadi.specs.Hadi.{hadi_algebra};
ghost use Rattle.hadi.specs.Radii.{NumbersAreRadii};

/// HADI keeps the laws of each algorithm.
pub fn hadi_keeps_laws()
    ensures { (seed : ℕ) → IsLawful (hadi_algebra seed) }
{}

/// The number of a node is the first step after which its sum is within 4 of the last one.
pub fn numbers_are_radii()
    ensures { NumbersAreRadii }
{}

/// A node takes in what the nodes send to which its edges lead; with both directions, those too whose edges lead to it.
pub fn entries_by_example()
    ensures one_way { hadi_entries false (from_to 0 1 ∷ from_to 2 1 ∷ []) ≡ plain_entry 0 1 ∷ plain_entry 2 1 ∷ [] }
    ensures both_ways { hadi_entries true (from_to 0 1 ∷ from_to 2 1 ∷ [])
        ≡ plain_entry 0 1 ∷ plain_entry 1 0 ∷ plain_entry 2 1 ∷ plain_entry 1 2 ∷ [] }
{}
