ghost use Rattle.std.specs.Prelude.{◌≡◌};
ghost use Rattle.conf.specs.Commands.{command_named, form_name, form_named, has_form, is_mining, name_of};

/// What is computed over the edges.
#[derive(Clone, Copy, Debug, PartialEq, Eq)]
pub enum Command {
    /// The components of a graph that fits in memory.
    Plain,
    /// The components, by jobs (HCC of PEGASUS, Kang and others 2009).
    Hcc,
    /// The effective radius of each node, by jobs (HADI, Kang and others 2008).
    Hadi,
    /// The rank of each node, by jobs.
    PageRank,
}

/// How the jobs lay out the matrix and the vector.
#[derive(Clone, Copy, Debug, PartialEq, Eq)]
pub enum Form {
    /// A line for each entry and each node.
    Base,
    /// A line for each block.
    Block,
    /// Blocks, with the nodes ordered so that neighbours come together.
    Clustered,
    /// Blocks, with each block on the diagonal closed within a step.
    Diagonal,
}

const COMMANDS: [Command; 4] = [
    Command::Plain,
    Command::Hcc,
    Command::Hadi,
    Command::PageRank,
];

const FORMS: [Form; 4] = [Form::Base, Form::Block, Form::Clustered, Form::Diagonal];

impl Command {
    /// The word that names the command.
    pub fn name(self) -> &'static [u8]
        ensures { result.now ≡ name_of self }
    {
        match self {
            Command::Plain => b"plain",
            Command::Hcc => b"hcc",
            Command::Hadi => b"hadi",
            Command::PageRank => b"pagerank",
        }
    }

    /// The command that a word names.
    pub fn named(word: &[u8]) -> Option<Command>
        ensures { result ≡ command_named word.now }
    {
        COMMANDS
            .iter()
            .copied()
            .find(|command| word == command.name())
    }

    /// Whether the command runs jobs in a work folder.
    pub fn is_mining(self) -> bool
        ensures { result ≡ is_mining self }
    {
        self != Command::Plain
    }

    /// Whether the command can take this form: the diagonal one is for components alone.
    pub fn has_form(self, form: Form) -> bool
        ensures { result ≡ has_form self form }
    {
        match self {
            Command::Plain => false,
            Command::Hcc => true,
            Command::Hadi | Command::PageRank => form != Form::Diagonal,
        }
    }
}

impl Form {
    /// The word that names the form.
    pub fn name(self) -> &'static [u8]
        ensures { result.now ≡ form_name self }
    {
        match self {
            Form::Base => b"base",
            Form::Block => b"block",
            Form::Clustered => b"clustered",
            Form::Diagonal => b"diagonal",
        }
    }

    /// The form of this command that a text names.
    pub fn named(command: Command, text: &[u8]) -> Option<Form>
        ensures { result ≡ form_named command text.now }
    {
        FORMS
            .iter()
            .copied()
            .find(|form| text == form.name() && command.has_form(*form))
    }
}
