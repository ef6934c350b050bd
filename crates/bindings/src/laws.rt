//! Laws over the definitions: each is the contract of a function that does nothing.
ghost use Rattle.std.specs.Prelude.{◌≡◌, ◌<◌, ℕ, AllPairs, List, Some, length, slice_get};
ghost use Rattle.bindings.specs.Instances.{WorkedInstances};
ghost use Rattle.bindings.specs.Listed.{IsBefore, IsBinding, bindings, digits, number_of, product};

/// There are as many bindings as the product of the sizes says.
pub fn bindings_are_counted()
    ensures { (sizes : List ℕ) → length (bindings sizes) ≡ product sizes }
{}

/// The binding of a number is the list of its digits, and a binding stands at the number that it spells.
pub fn bindings_are_numbered()
    ensures digits { (sizes : List ℕ) (number : ℕ) → number < product sizes → slice_get (bindings sizes) number ≡ Some (digits sizes number) }
    ensures number { (sizes binding : List ℕ) → IsBinding sizes binding → slice_get (bindings sizes) (number_of sizes binding) ≡ Some binding }
{}

/// Numbers and bindings give each other.
pub fn numbers_and_bindings_are_inverse()
    ensures number { (sizes : List ℕ) (number : ℕ) → number < product sizes → number_of sizes (digits sizes number) ≡ number }
    ensures binding { (sizes binding : List ℕ) → IsBinding sizes binding → digits sizes (number_of sizes binding) ≡ binding }
    ensures below { (sizes binding : List ℕ) → IsBinding sizes binding → number_of sizes binding < product sizes }
{}

/// Each of the bindings has one number for each variable, below its size.
pub fn bindings_are_in_range()
    ensures { (sizes : List ℕ) (number : ℕ) (binding : List ℕ) → slice_get (bindings sizes) number ≡ Some binding → IsBinding sizes binding }
{}

/// Each of the bindings stands before all later ones in lexicographic order.
pub fn bindings_rise()
    ensures { (sizes : List ℕ) → AllPairs IsBefore (bindings sizes) }
{}

/// Instances of the definitions, that were worked out by hand.
pub fn small_instances_hold()
    ensures { WorkedInstances }
{}
