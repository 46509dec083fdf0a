ghost use Rattle.std.specs.Prelude.{◌≡◌, ℕ, List, IfOk};

use peg_base::Words;
use peg_text::NoMemory;
use std::alloc::Global;

/// The programs that the children of a site in memory run.
pub trait Roles {
    /// What a child of these words writes for an input. No call changes it.
    ghost gives: { List (List ℕ) → List ℕ → List ℕ };

    /// What a child of these words writes for this input.
    fn answer(&mut self, alloc: Global, words: &Words, input: &[u8]) -> Result<Vec<u8>, NoMemory>
        ensures { IfOk result (λ answer. answer.items ≡ gives words.now input.now) };
}
