//! Laws over the definitions: each is the contract of a function that does nothing.
ghost use Rattle.cert_goals.specs.Laws.{HasNumbers, IsUnfolded, ShownHolds, ShownSectionsHold, TokensAreNamed};
ghost use Rattle.cert_goals.specs.Sections.{Setting};

/// Where a section of a certificate is judged `Shown`, each marking that coloured firing reaches
/// satisfies the invariant of the section's goal.
pub fn shown_holds()
    ensures { (setting : Setting) → IsUnfolded setting → ShownHolds setting }
{}

/// Where a whole certificate is judged `Shown`, it is so for the goal of each section.
pub fn shown_sections_hold()
    ensures { (setting : Setting) → IsUnfolded setting → ShownSectionsHold setting }
{}

/// The tokens that a place on a line stands for are those of the coloured net's place: of all
/// colours, or of the one that the line names.
pub fn tokens_are_named()
    ensures { (setting : Setting) → IsUnfolded setting → HasNumbers setting → TokensAreNamed setting }
{}
