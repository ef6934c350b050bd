ghost use Rattle.canon_laws.specs.Laws.{CanonicalTextsStay, ReadNetsAreSpelled, ReadNetsAreToldApart, ReadNetsStay, TextsGiveTheNet, TextsTellNetsApart, TreesGiveTheNet};

/// The canonical tree of a net gives the net again.
pub fn canonical_trees_give_the_net()
    ensures { TreesGiveTheNet }
{}

/// The canonical text of a net spells a tree that gives the net again.
pub fn canonical_texts_give_the_net()
    ensures { TextsGiveTheNet }
{}

/// Nets with one canonical text are the same.
pub fn canonical_texts_tell_nets_apart()
    ensures { TextsTellNetsApart }
{}

/// A canonical text that is read and written stays as it is.
pub fn canonical_texts_stay()
    ensures { CanonicalTextsStay }
{}

/// The canonical text of every net that is read spells a tree that breaks no rule of nets and gives the net again.
pub fn read_nets_are_spelled()
    ensures { ReadNetsAreSpelled }
{}

/// Two nets that are read are the same exactly where their canonical texts are.
pub fn read_nets_are_told_apart()
    ensures { ReadNetsAreToldApart }
{}

/// The canonical text of every net that is read is read without a broken rule, and written again it is the same.
pub fn read_nets_stay()
    ensures { ReadNetsStay }
{}
