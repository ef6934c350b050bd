ghost use Rattle.pnml_write.specs.Instances.{SmallNetHasItsText};

/// An instance of the canonical text: that of a net with one place, which has two tokens.
pub fn small_net_has_its_text()
    ensures { SmallNetHasItsText }
{}
