ghost use Rattle.net_elements.specs.Instances.{EachIsBroken, NothingIsBroken, SecondIdIsBroken};

/// Three instances of the rules that a tree breaks: two places of one id; a place and a transition; and a place of a symmetric net
/// without a type, an arc without a target, and an element that may not stand there.
pub fn small_instances_hold()
    ensures second { SecondIdIsBroken }
    ensures nothing { NothingIsBroken }
    ensures each { EachIsBroken }
{}
