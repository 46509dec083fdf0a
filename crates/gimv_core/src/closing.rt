ghost use Rattle.std.specs.Prelude.{◌≡◌};
ghost use Rattle.gimv_core.specs.Algebras.{FitsVal};
ghost use Rattle.gimv_core.specs.Closings.{IsClosing};

use crate::gimv::Gimv;

/// An algorithm whose messages are values of other nodes, of which a node takes over the least.
///
/// Its steps may be repeated over a block of nodes first, until they change nothing there.
pub trait Closing: Gimv {
    /// A value as a message.
    ghost as_message: { Self → Self.Val → Self.Msg };

    /// A value as a message.
    fn as_msg(&self, val: &Self::Val) -> Self::Msg
        requires { FitsVal (Self.algebra self.now) val.now }
        ensures { result ≡ as_message self.now val.now };

    /// The further laws.
    ghost closing: { (g : Self) → IsClosing (Self.algebra g) (as_message g) };
}
