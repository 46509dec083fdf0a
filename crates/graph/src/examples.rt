//! Worked examples of the definitions: each contract says what one computes.

ghost use Rattle.std.specs.Prelude.{◌≡◌, ◌∷◌, [], map};
ghost use Rattle.std.specs.List.{range_with_len};
ghost use Rattle.graph.specs.Algorithms.{hcc, page_rank};
ghost use Rattle.graph.specs.Entries.{hcc_entries, page_rank_entries};
ghost use Rattle.graph.specs.Examples.{from_to, three_edges, values_after};
ghost use Rattle.graph.specs.Steps.{changed};
ghost use Rattle.graph.specs.Walks.{AreLeast};

/// The labels of three nodes on a path, two that are joined and one alone, until they no longer change.
pub fn labels_fall_step_by_step()
    ensures first { values_after hcc (hcc_entries three_edges) 6 0 ≡ 0 ∷ 1 ∷ 2 ∷ 3 ∷ 4 ∷ 5 ∷ [] }
    ensures second { values_after hcc (hcc_entries three_edges) 6 1 ≡ 0 ∷ 0 ∷ 1 ∷ 3 ∷ 3 ∷ 5 ∷ [] }
    ensures third { values_after hcc (hcc_entries three_edges) 6 2 ≡ 0 ∷ 0 ∷ 0 ∷ 3 ∷ 3 ∷ 5 ∷ [] }
    ensures changes { map (changed hcc (hcc_entries three_edges) 6) (range_with_len 0 4) ≡ 6 ∷ 3 ∷ 1 ∷ 0 ∷ [] }
{}

/// The least labels of the same graph.
pub fn least_labels_of_three_edges()
    ensures { AreLeast 6 three_edges (0 ∷ 0 ∷ 0 ∷ 3 ∷ 3 ∷ 5 ∷ []) }
{}

/// A path of n nodes takes n iterations, so the bound is met.
pub fn a_path_of_four_takes_four_steps()
    ensures { map (changed hcc (hcc_entries (from_to 0 1 ∷ from_to 1 2 ∷ from_to 2 3 ∷ [])) 4) (range_with_len 0 5)
        ≡ 4 ∷ 3 ∷ 2 ∷ 1 ∷ 0 ∷ [] }
{}

/// The ranks of two nodes.
pub fn ranks_pass_along_edges()
    ensures there_and_back { values_after (page_rank 2) (page_rank_entries (from_to 0 1 ∷ from_to 1 0 ∷ [])) 2 2
        ≡ 2147483646 ∷ 2147483646 ∷ [] }
    ensures one_edge { values_after (page_rank 2) (page_rank_entries (from_to 0 1 ∷ [])) 2 1
        ≡ 322122547 ∷ 2147483647 ∷ [] }
    ensures same_edge_twice { values_after (page_rank 2) (page_rank_entries (from_to 0 1 ∷ from_to 0 1 ∷ [])) 2 1
        ≡ 322122547 ∷ 2147483647 ∷ [] }

    // Each message is rounded down by itself.
    ensures to_itself { values_after (page_rank 2) (page_rank_entries (from_to 0 1 ∷ from_to 1 1 ∷ [])) 2 1
        ≡ 322122547 ∷ 3972844747 ∷ [] }
{}
