ghost use Rattle.std.specs.Prelude.{◌≡◌, ◌<◌, ◌≤◌, ◌↔◌, [], ◌∷◌, ◌++◌, length, IfOk, IsTrue, Some, nat_eq, refl};
ghost use Rattle.std.specs.Ordering.{nat_cmp};
ghost use Rattle.std.specs.Cmp.{partial_equiv_from_equiv, partial_order_from_agreeing_total};
ghost use Rattle.std.specs.Cmp.Lexicographic.{pointwise, slice_cmp, nat_list_eq_equiv, nat_list_cmp_total, lists_equiv, lists_total, lists_ties, texts_ties};
ghost use Rattle.peg_base.specs.Names.{Names, under};

use crate::Name;
use peg_text::NoMemory;
use std::alloc::Global;
use std::cmp::Ordering;
use std::marker::Model;

/// A path of at most 8 names, from the top folder down. Contracts see the list of its names. Paths are ordered by
/// these lists.
#[derive(Debug, Drop)]
pub struct Path {
    names: Vec<Name>,
}

impl Model for Path {
    ghost use Rattle.std.specs.Prelude.{◌≤◌, length};
    ghost use Rattle.peg_base.specs.Names.{Names};

    ghost Value = { Names };

    ghost view = { λ p. p.names.items };

    ghost invariant = { λ p. length p.names.items ≤ 8 };
}

impl Path {
    /// The path without names, of the top folder.
    pub fn root(alloc: Global) -> Path
        ensures { result ≡ [] }
    {
        Path {
            names: Vec::new(alloc),
        }
    }

    /// The path of this name in the folder of this path.
    pub fn child(&self, alloc: Global, name: &Name) -> Result<Path, NoMemory>
        requires { length self.now < 8 }
        ensures { IfOk result (λ path. path ≡ self.now ++ name.now ∷ []) }
    {
        let mut names = copy_names(alloc, self.names())?;
        names.push(name.copy(alloc)?)?;
        Ok(Path { names })
    }

    /// Whether the path is `top` or lies under it.
    pub fn under(&self, top: &Path) -> bool
        ensures value { result ≡ under top.now self.now }
        ensures prefix { IsTrue result ↔ ((rest : Names) × (self.now ≡ top.now ++ rest)) }
    {
        self.names().starts_with(top.names())
    }

    /// The names in their order, from the top folder down.
    pub fn names(&self) -> &[Name]
        ensures value { result.now ≡ self.now }
        ensures short { length self.now ≤ 8 }
    {
        self.names.as_slice()
    }

    /// The same path again.
    pub fn copy(&self, alloc: Global) -> Result<Path, NoMemory>
        ensures { IfOk result (λ path. path ≡ self.now) }
    {
        Ok(Path {
            names: copy_names(alloc, self.names())?,
        })
    }
}

fn copy_names(alloc: Global, names: &[Name]) -> Result<Vec<Name>, NoMemory>
    ensures { IfOk result (λ copies. copies.items ≡ names.now) }
{
    let mut copies = Vec::new(alloc);
    for name in names {
        copies.push(name.copy(alloc)?)?;
    }
    Ok(copies)
}

impl PartialEq for Path {
    ghost eq = { pointwise (pointwise nat_eq) };

    ghost laws = { partial_equiv_from_equiv (lists_equiv nat_list_eq_equiv) };

    fn eq(&self, other: &Path) -> bool {
        self.names() == other.names()
    }
}

impl Eq for Path {
    ghost laws = { lists_equiv nat_list_eq_equiv };
}

impl PartialOrd for Path {
    ghost partial_cmp = { λ x y. Some (slice_cmp (slice_cmp nat_cmp) x y) };

    ghost laws = { partial_order_from_agreeing_total (slice_cmp (slice_cmp nat_cmp)) (lists_total nat_list_cmp_total) (λ x y. refl) (lists_ties (slice_cmp nat_cmp) texts_ties) };

    fn partial_cmp(&self, other: &Path) -> Option<Ordering> {
        Some(self.cmp(other))
    }
}

impl Ord for Path {
    ghost cmp = { slice_cmp (slice_cmp nat_cmp) };

    ghost total = { lists_total nat_list_cmp_total };

    ghost matches_partial_cmp = { λ x y. refl };

    ghost matches_eq = { lists_ties (slice_cmp nat_cmp) texts_ties };

    fn cmp(&self, other: &Path) -> Ordering {
        self.names().cmp(other.names())
    }
}
