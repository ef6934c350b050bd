//! Laws over the definitions: each is the contract of a function that does nothing.
ghost use Rattle.pt_net.specs.Systems.{NetSystem, IsSystem};
ghost use Rattle.reductions.specs.Examples.{ExamplesAreRight};
ghost use Rattle.reductions.specs.Laws.{DeadAndBlockedAreOff, EnabledAreLive, LiftedIsProjected, LiveAreEnabled, ProjectedIsLifted, ReachIsReduced, ReducedIsSystem};

/// What the definitions give of five small nets.
pub fn examples_are_right()
    ensures { ExamplesAreRight }
{}

/// An instance that is enabled at a reached marking is live in each round.
pub fn enabled_are_live()
    ensures live { (net : NetSystem) → EnabledAreLive net }
    ensures others { (net : NetSystem) → DeadAndBlockedAreOff net }
    ensures exact { (net : NetSystem) → IsSystem net → LiveAreEnabled net }
{}

/// A marking is reached exactly where it keeps the constant places and is reached without them in
/// the reduced net.
pub fn reach_is_reduced()
    ensures { (net : NetSystem) → IsSystem net → ReachIsReduced net }
{}

/// Leaving the constant places out undoes putting them back, and the other way round where the
/// marking keeps them.
pub fn lifted_is_projected()
    ensures lifted { (net : NetSystem) → LiftedIsProjected net }
    ensures projected { (net : NetSystem) → ProjectedIsLifted net }
{}

/// The reduced net meets the bounds of nets.
pub fn reduced_is_system()
    ensures { (net : NetSystem) → IsSystem net → ReducedIsSystem net }
{}
