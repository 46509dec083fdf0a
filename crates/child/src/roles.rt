ghost use Rattle.std.specs.Prelude.{◌≡◌};
ghost use Rattle.child.specs.Roles.{name_of, role_named};

/// A role of a child, by the word that names it.
#[derive(Clone, Copy, Debug, PartialEq, Eq)]
pub enum RoleName {
    Id,
    Edges,
    Entries,
    Degrees,
    First,
    Stage1,
    Stage2,
    Number,
    Group,
    FirstB,
    Cut,
    Blocks,
    Block1,
    Diag1,
    Block2,
    Unblock,
    Unplace,
    Place,
}

const ROLES: [RoleName; 18] = [
    RoleName::Id,
    RoleName::Edges,
    RoleName::Entries,
    RoleName::Degrees,
    RoleName::First,
    RoleName::Stage1,
    RoleName::Stage2,
    RoleName::Number,
    RoleName::Group,
    RoleName::FirstB,
    RoleName::Cut,
    RoleName::Blocks,
    RoleName::Block1,
    RoleName::Diag1,
    RoleName::Block2,
    RoleName::Unblock,
    RoleName::Unplace,
    RoleName::Place,
];

impl RoleName {
    /// The word that names the role.
    pub fn name(self) -> &'static [u8]
        ensures { result.now ≡ name_of self }
    {
        match self {
            RoleName::Id => b"id",
            RoleName::Edges => b"edges",
            RoleName::Entries => b"entries",
            RoleName::Degrees => b"degrees",
            RoleName::First => b"first",
            RoleName::Stage1 => b"stage1",
            RoleName::Stage2 => b"stage2",
            RoleName::Number => b"number",
            RoleName::Group => b"group",
            RoleName::FirstB => b"firstb",
            RoleName::Cut => b"cut",
            RoleName::Blocks => b"blocks",
            RoleName::Block1 => b"block1",
            RoleName::Diag1 => b"diag1",
            RoleName::Block2 => b"block2",
            RoleName::Unblock => b"unblock",
            RoleName::Unplace => b"unplace",
            RoleName::Place => b"place",
        }
    }

    /// The role that a word names.
    pub fn named(word: &[u8]) -> Option<RoleName>
        ensures { result ≡ role_named word.now }
    {
        ROLES.iter().copied().find(|role| word == role.name())
    }
}
