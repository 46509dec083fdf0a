//! Laws on sorted pairs and on their texts. Each is the contract of a function that does nothing.
ghost use Rattle.pairs.specs.Prefixes.{LesserPrefixComesFirst};
ghost use Rattle.pairs.specs.Laws.{SortedIsInOrder, SortedIsPermutation, PermutationsSortAlike, InOrderIsSorted, LeastComesFirst, PairsReadBack, TextsFollow, OrderByExample, TextByExample};

/// The sorted list of pairs has each of them as often as the list, in order.
pub fn sorted_has_all_in_order()
    ensures in_order { SortedIsInOrder }
    ensures permutation { SortedIsPermutation }
{}

/// The sorted list doesn't depend on the order of the list.
pub fn permutations_sort_alike()
    ensures { PermutationsSortAlike }
{}

/// A list of the same pairs that is in order is the sorted list.
pub fn in_order_is_sorted()
    ensures { InOrderIsSorted }
{}

/// A pair that may stand before all others comes first.
pub fn least_comes_first()
    ensures { LeastComesFirst }
{}

/// Pairs whose keys have no TAB and no LF, and whose values have no LF, are read back from their text.
pub fn pairs_read_back()
    ensures { PairsReadBack }
{}

/// The texts of two lists of pairs make the text of both.
pub fn texts_follow()
    ensures { TextsFollow }
{}

/// Of two texts with different prefixes, the one with the lesser prefix comes first.
pub fn lesser_prefix_comes_first()
    ensures { LesserPrefixComesFirst }
{}

/// Small lists of pairs, their order and their text.
pub fn pairs_by_example()
    ensures order { OrderByExample }
    ensures text { TextByExample }
{}
