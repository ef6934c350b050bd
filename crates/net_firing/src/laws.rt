//! Laws over the definitions: each is the contract of a function that does nothing.
ghost use Rattle.std.specs.Prelude.{◌≡◌, Ok};
ghost use Rattle.pt_net.specs.Systems.{NetSystem};
ghost use Rattle.net_firing.specs.Coloured.{ColouredNet};
ghost use Rattle.net_firing.specs.Instances.{WorkedInstances};
ghost use Rattle.net_firing.specs.Laws.{CountsAreMarkings, FiringsCorrespond, ModesAreNumbered, ReachesCorrespond, RowsAreTold, RunsCorrespond};
ghost use Rattle.net_firing.specs.Unfolding.{unfolding_of};

/// Each list of counts, one for each place and colour of its sort, stands for exactly one marking, and each marking for one list.
pub fn counts_are_markings()
    ensures { (net : ColouredNet) → CountsAreMarkings net }
{}

/// A row is told by its amounts: where it has the counts of a list, it is the row of this list.
pub fn rows_are_told_by_amounts()
    ensures { RowsAreTold }
{}

/// Each mode of each transition has exactly one instance in the unfolded net, and each instance comes from a mode.
pub fn modes_are_numbered()
    ensures { (net : ColouredNet) (u : NetSystem) → unfolding_of net ≡ Ok u → ModesAreNumbered net u }
{}

/// A transition fires with a binding exactly where it has an instance that comes from it, and this instance fires.
pub fn firings_correspond()
    ensures { (net : ColouredNet) (u : NetSystem) → unfolding_of net ≡ Ok u → FiringsCorrespond net u }
{}

/// A list of transitions with bindings fires exactly where each has an instance that comes from it, and these instances fire one after
/// another.
pub fn runs_correspond()
    ensures { (net : ColouredNet) (u : NetSystem) → unfolding_of net ≡ Ok u → RunsCorrespond net u }
{}

/// A marking is reached by coloured firing exactly where its counts are reached in the unfolded net.
pub fn reaches_correspond()
    ensures { (net : ColouredNet) (u : NetSystem) → unfolding_of net ≡ Ok u → ReachesCorrespond net u }
{}

/// Instances of the definitions, that were worked out by hand.
pub fn small_instances_hold()
    ensures { WorkedInstances }
{}
