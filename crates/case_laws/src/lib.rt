//! The walk by numbers over case trees costs what the walk that it stands for does.
//!
//! The functions here do nothing: the contract of the first is a law over the definitions of paths by numbers (`case_tree`) and of
//! case trees (`cert_model`), and the second has an instance of it.
#![tactic(auto)]

ghost use Rattle.case_laws.specs.Examples.{ExampleIsRight};
ghost use Rattle.case_laws.specs.Standing.{LimitsAreTold};

/// Where items and nodes by number stand for those of case trees, the line at which the walk over all sections stops is that of the
/// visit at which the costs add up past the limit.
pub fn limits_are_told()
    ensures { LimitsAreTold }
{}

/// Numbers stand for the items and nodes of a small case tree, and the visits cost what they should.
pub fn example_is_right()
    ensures { ExampleIsRight }
{}
