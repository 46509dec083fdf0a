ghost use Rattle.std.specs.Prelude.{◌≡◌, ◌≤◌, length, IfOk, IsTrue};
ghost use Rattle.committer.specs.Paths.{success_of};
ghost use Rattle.digit_names.specs.Digits.{begins_name};
ghost use Rattle.mining.specs.Places.{folder_of, name_of};

use digit_names::numbered;
use peg_base::{Name, Path};
use peg_text::NoMemory;
use std::alloc::Global;

/// A folder of a work folder.
#[derive(Clone, Copy, Debug, PartialEq, Eq)]
pub enum Place {
    /// The settings that committed bytes depend on.
    Conf,
    /// The accepted edges.
    Edges,
    /// The id at each place.
    Nodes,
    /// The edges by their places, in the clustered form.
    Placed,
    /// The matrix.
    Matrix,
    /// The matrix in blocks.
    Blocks,
    /// The messages of an iteration, from 1.
    Messages(u32),
    /// The vector after an iteration, from 0.
    Vector(u32),
    /// The numbers by their ids, in the clustered form.
    Joined,
    /// The result.
    Results,
}

/// The name of this text.
fn plain(alloc: Global, text: &[u8]) -> Result<Name, NoMemory>
    requires front { IsTrue (begins_name text.now) }
    requires short { length text.now ≤ 64 }
    ensures { IfOk result (λ name. name ≡ text.now) }
{
    numbered(alloc, text, 0, 0)
}

impl Place {
    /// The name of the folder.
    #[tactic(auto, unfolding(crate::specs::Places::name_of))]
    fn name(self, alloc: Global) -> Result<Name, NoMemory>
        ensures { IfOk result (λ name. name ≡ name_of self) }
    {
        match self {
            Place::Conf => plain(alloc, b"conf"),
            Place::Edges => plain(alloc, b"edges"),
            Place::Nodes => plain(alloc, b"nodes"),
            Place::Placed => plain(alloc, b"placed"),
            Place::Matrix => plain(alloc, b"matrix"),
            Place::Blocks => plain(alloc, b"blocks"),
            Place::Messages(k) => numbered(alloc, b"s-", u64::from(k), 10),
            Place::Vector(k) => numbered(alloc, b"v-", u64::from(k), 10),
            Place::Joined => plain(alloc, b"joined"),
            Place::Results => plain(alloc, b"result"),
        }
    }

    /// The path of the folder.
    pub fn path(self, alloc: Global) -> Result<Path, NoMemory>
        ensures { IfOk result (λ path. path ≡ folder_of self) }
    {
        let name = self.name(alloc)?;
        Path::root(alloc).child(alloc, &name)
    }

    /// The path of the file that says that the folder is whole.
    #[tactic(auto, unfolding(committer::specs::Paths::success_name))]
    pub fn mark(self, alloc: Global) -> Result<Path, NoMemory>
        ensures { IfOk result (λ path. path ≡ success_of (folder_of self)) }
    {
        let folder = self.path(alloc)?;
        folder.child(alloc, &plain(alloc, b"_SUCCESS")?)
    }
}
