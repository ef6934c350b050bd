//! Laws over the definitions: each is the contract of a function that does nothing.
ghost use Rattle.pt_net.specs.Numbering.{NetNumbering};
ghost use Rattle.pt_net.specs.Systems.{NetSystem, IsSystem};
ghost use Rattle.cert_names.specs.Examples.{ExamplesAreRight};
ghost use Rattle.cert_names.specs.Meanings.{ClaimsHold, FactsAreClaims, SplitsAreClaims};
ghost use Rattle.cert_names.specs.Laws.{AreNumbersOf, EachIsShown, NamesAreNumbered, ShownHoldsAtReached, TreesAreWalked};

/// What the definitions give of a small certificate.
pub fn examples_are_right()
    ensures { ExamplesAreRight }
{}

/// Names are numbered exactly: a name on a line is there where it stands for something and nowhere
/// else, and each place, colour and transition instance has the number of its own name.
pub fn names_are_numbered()
    ensures { (l : NetNumbering) (net : NetSystem) → AreNumbersOf l net → NamesAreNumbered l net }
{}

/// Where a section of a certificate is judged `Shown`, its invariant is true at each marking that
/// the net reaches.
pub fn shown_holds_at_reached()
    ensures { (l : NetNumbering) (net : NetSystem) → IsSystem net → ShownHoldsAtReached l net }
{}

/// Where a whole certificate is judged `Shown`, each of its sections is.
pub fn each_is_shown()
    ensures { (l : NetNumbering) (net : NetSystem) → EachIsShown l net }
{}

/// At reached markings a fact over the reduced net is met exactly where what its line claims of the
/// tokens on the named places is so.
pub fn facts_are_claims()
    ensures { (l : NetNumbering) (net : NetSystem) → IsSystem net → FactsAreClaims l net }
{}

/// At reached markings the branches of a split suppose that the weighted sum of tokens is at most
/// the limit, and that it is above it.
pub fn splits_are_claims()
    ensures { (l : NetNumbering) (net : NetSystem) → IsSystem net → SplitsAreClaims l net }
{}

/// Where the facts of a certificate are judged `Shown`, what they claim is so at each marking that
/// the net reaches.
pub fn claims_hold()
    ensures { (l : NetNumbering) (net : NetSystem) → IsSystem net → ClaimsHold l net }
{}

/// The nodes of a tree, as the grammar of certificates has it, are one tree of the walk.
pub fn trees_are_walked()
    ensures { TreesAreWalked }
{}
