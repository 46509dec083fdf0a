ghost use Rattle.std.specs.Prelude.{◌≡◌, ◌++◌, IfOk, OnOk, OnErr};
ghost use Rattle.gimv_core.specs.Algebras.{Algebra, FitsVal, FitsMsg, FitsWeight};
ghost use Rattle.gimv_core.specs.Laws.{IsLawful};

use peg_text::NoMemory;
use std::alloc::Global;

/// An algorithm on a matrix and a vector: what goes along an entry of the matrix, how this is put together, and what a
/// node takes over of it.
///
/// What a call is given has to fit: each number is in the range of its type, and there is a text for the whole. By the
/// laws, what a call makes of this fits too, and so does what is read.
pub trait Gimv {
    /// What a node has.
    type Val: Drop;
    /// What goes along an entry.
    type Msg: Drop;
    /// What an entry weighs.
    type Weight: Drop;

    /// What the calls compute.
    ghost algebra: { Self → Algebra Self.Val Self.Msg Self.Weight };

    /// The message that stands for none.
    fn unit(&self) -> Self::Msg
        ensures { result ≡ (algebra self.now).algorithm.unit };

    /// Puts one more message together with those before it.
    fn combine(&self, into: &mut Self::Msg, one: &Self::Msg)
        requires into_fits { FitsMsg (algebra self.now) into.old }
        requires one_fits { FitsMsg (algebra self.now) one.now }
        ensures { into.new ≡ (algebra self.now).algorithm.combine into.old one.now };

    /// What an entry of this weight passes on of the value of its column.
    fn combine2(&self, weight: &Self::Weight, val: &Self::Val) -> Self::Msg
        requires weight_fits { FitsWeight (algebra self.now) weight.now }
        requires val_fits { FitsVal (algebra self.now) val.now }
        ensures { result ≡ (algebra self.now).algorithm.combine2 weight.now val.now };

    /// The new value of a node, from its old one and all messages to it, put together.
    fn assign(&self, alloc: Global, old: &Self::Val, all: &Self::Msg) -> Result<Self::Val, NoMemory>
        requires old_fits { FitsVal (algebra self.now) old.now }
        requires all_fits { FitsMsg (algebra self.now) all.now }
        ensures { IfOk result (λ val. val ≡ (algebra self.now).algorithm.assign old.now all.now) };

    /// Whether two values count as the same.
    fn same(&self, a: &Self::Val, b: &Self::Val) -> bool
        requires a_fits { FitsVal (algebra self.now) a.now }
        requires b_fits { FitsVal (algebra self.now) b.now }
        ensures { result ≡ (algebra self.now).algorithm.same a.now b.now };

    /// The value of a node before the first step.
    fn first(&self, alloc: Global, node: u32) -> Result<Self::Val, NoMemory>
        ensures { IfOk result (λ val. val ≡ (algebra self.now).algorithm.first node) };

    /// The number that a value stands for in a result.
    fn number(&self, val: &Self::Val) -> u64
        requires { FitsVal (algebra self.now) val.now }
        ensures { result ≡ (algebra self.now).algorithm.number val.now };

    /// The value that a text writes. `None` exactly where the text is not of the grammar.
    fn read_val(&self, alloc: Global, text: &[u8]) -> Result<Option<Self::Val>, NoMemory>
        ensures { IfOk result (λ found. found ≡ (algebra self.now).val_of text.now) };

    /// Appends the text of a value.
    ///
    /// Without memory `out` is as before.
    fn write_val(&self, alloc: Global, out: &mut Vec<u8>, val: &Self::Val) -> Result<(), NoMemory>
        requires { FitsVal (algebra self.now) val.now }
        ensures ok { OnOk result (out.new.items ≡ out.old.items ++ (algebra self.now).val_text val.now) }
        ensures no_memory { OnErr result (out.new.items ≡ out.old.items) };

    /// The message that a text writes. `None` exactly where the text is not of the grammar.
    fn read_msg(&self, text: &[u8]) -> Option<Self::Msg>
        ensures { result ≡ (algebra self.now).msg_of text.now };

    /// Appends the text of a message.
    ///
    /// Without memory `out` is as before.
    fn write_msg(&self, alloc: Global, out: &mut Vec<u8>, msg: &Self::Msg) -> Result<(), NoMemory>
        requires { FitsMsg (algebra self.now) msg.now }
        ensures ok { OnOk result (out.new.items ≡ out.old.items ++ (algebra self.now).msg_text msg.now) }
        ensures no_memory { OnErr result (out.new.items ≡ out.old.items) };

    /// The weight that a text writes. `None` exactly where the text is not of the grammar.
    fn read_weight(&self, text: &[u8]) -> Option<Self::Weight>
        ensures { result ≡ (algebra self.now).weight_of text.now };

    /// The laws.
    ghost lawful: { (g : Self) → IsLawful (algebra g) };
}
