ghost use Rattle.pnml_read.specs.Instances.{SmallTreeGivesItsNet};

/// An instance of the net that a tree gives: a place with two tokens, a transition, and an arc of weight 1 between them.
pub fn small_tree_gives_its_net()
    ensures { SmallTreeGivesItsNet }
{}
