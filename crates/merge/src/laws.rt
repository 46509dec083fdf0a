//! What a merge rests on. Each function is a law that its contract states, and does nothing.
ghost use Rattle.merge.specs.Laws.{LeastFirstPairComesFirst, MergeNamesByExample, PassesAreNeeded, PassesKeepThePairs, TenAreLeftAtMost};

/// Of lists in order, the least of their first pairs comes first, and then what is left of them.
pub fn least_first_pair_comes_first()
    ensures { LeastFirstPairComesFirst }
{}

/// Passes neither lose a pair nor add one, and leave ten runs at most.
pub fn passes_keep_the_pairs()
    ensures pairs { PassesKeepThePairs }
    ensures left { TenAreLeftAtMost }
{}

/// There are as few passes as can be where each makes one run of ten.
pub fn passes_are_needed()
    ensures { PassesAreNeeded }
{}

/// The runs of passes are named by their numbers, with zeros in front.
pub fn names_by_example()
    ensures { MergeNamesByExample }
{}
