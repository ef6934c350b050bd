//! Laws over the definitions: each is the contract of a function that does nothing.
ghost use Rattle.std.specs.Prelude.{◌≡◌, Ok};
ghost use Rattle.pt_net.specs.Systems.{NetSystem, IsSystem};
ghost use Rattle.net_firing.specs.Coloured.{ColouredNet};
ghost use Rattle.net_firing.specs.Unfolding.{unfolding_of};
ghost use Rattle.net_props.specs.Examples.{ExamplesAreRight};
ghost use Rattle.net_props.specs.Laws.{FormulasAreStated, ResolvedMeansTheSame, ShownHolds};

/// What the definitions give of a small net.
pub fn examples_are_right()
    ensures { ExamplesAreRight }
{}

/// The formula of a file is stated case by case.
pub fn formulas_are_stated()
    ensures { FormulasAreStated }
{}

/// A marking satisfies a formula exactly where the formula over the place instances is true at its
/// counts in the unfolded net.
pub fn resolved_means_the_same()
    ensures { (net : ColouredNet) (u : NetSystem) → unfolding_of net ≡ Ok u → IsSystem u → ResolvedMeansTheSame net u }
{}

/// Where a section over the reduced unfolded net is judged `Shown` for a goal, each marking that
/// coloured firing reaches satisfies the goal's invariant.
pub fn shown_holds()
    ensures { (net : ColouredNet) (u : NetSystem) → unfolding_of net ≡ Ok u → IsSystem u → ShownHolds net u }
{}
