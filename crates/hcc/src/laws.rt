//! The laws, as the contract of a function that does nothing.

ghost use Rattle.gimv_core.specs.Closings.{IsClosing};
ghost use Rattle.gimv_core.specs.Laws.{IsLawful};
ghost use Rattle.hcc.specs.Components.{hcc_algebra, label_as_message};

/// The components keep the laws of each algorithm, and those of a closing one.
pub fn components_keep_laws()
    ensures lawful { IsLawful hcc_algebra }
    ensures closing { IsClosing hcc_algebra label_as_message }
{}
