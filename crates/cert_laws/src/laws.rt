//! Laws over the definitions: each is the contract of a function that does nothing.
ghost use Rattle.pt_net.specs.Systems.{NetSystem, IsSystem};
ghost use Rattle.cert_laws.specs.Examples.{ExamplesAreRight};
ghost use Rattle.cert_laws.specs.Laws.{FatesTellFiring, FiringIsReduced, FormulasAreReduced, PlainNetsMeanTheSame, ShownHoldsAtReached};

/// What the definitions give of a small net.
pub fn examples_are_right()
    ensures { ExamplesAreRight }
{}

/// A net as plain data fires, and has formulas, as the net itself does.
pub fn plain_nets_mean_the_same()
    ensures { (net : NetSystem) → IsSystem net → PlainNetsMeanTheSame net }
{}

/// At reached markings an instance that is dead or blocked in any round is never enabled, and a
/// live one, kept or merged, exactly where its inputs fit on the reduced places, which is where
/// the instance of its number is enabled in the reduced net.
pub fn firing_is_reduced()
    ensures places { (net : NetSystem) → IsSystem net → FiringIsReduced net }
    ensures fates { (net : NetSystem) → IsSystem net → FatesTellFiring net }
{}

/// At reached markings a formula over all places is true exactly where it is true on the reduced
/// places, with the constant places' counts in its constants.
pub fn formulas_are_reduced()
    ensures { (net : NetSystem) → IsSystem net → FormulasAreReduced net }
{}

/// Where a section over the reduced net is judged `Shown`, its invariant is true at each marking
/// that the net reaches.
pub fn shown_holds_at_reached()
    ensures { (net : NetSystem) → IsSystem net → ShownHoldsAtReached net }
{}
