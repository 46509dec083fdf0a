ghost use Rattle.std.specs.Prelude.{◌≡◌};
ghost use Rattle.gimv_core.specs.Weights.{one_of};

use graph::One;

/// The weight of which the only text is `1`. `None` at any other text.
pub fn read_one(text: &[u8]) -> Option<One>
    ensures { result ≡ one_of text.now }
{
    match text {
        [b'1'] => Some(One),
        _ => None,
    }
}
