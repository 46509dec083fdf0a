//! Laws on ranks, each the contract of a function that does nothing.

ghost use Rattle.std.specs.Prelude.{ℕ};
ghost use Rattle.gimv_core.specs.Laws.{IsLawful};
ghost use Rattle.pagerank.specs.Ranks.{page_rank_algebra};
ghost use Rattle.pagerank.specs.Sums.{NoSumIsCapped, RanksSumToAWhole};

/// The ranks keep the laws of each algorithm.
pub fn ranks_keep_laws()
    ensures { (n : ℕ) → IsLawful (page_rank_algebra n) }
{}

/// The ranks of a graph's nodes sum to at most 2^32 units after each step, and so no sum is cut off at its cap.
pub fn ranks_sum_to_a_whole()
    ensures sum { RanksSumToAWhole }
    ensures uncapped { NoSumIsCapped }
{}
