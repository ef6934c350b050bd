//! Laws over the definitions: each is the contract of a function that does nothing.
ghost use Rattle.plain_model.specs.Ring.{FlowSlackIsRight, ReportsAreRight};
ghost use Rattle.plain_model.specs.Soundness.{ShownIsInvariant};

/// Where every obligation of a certificate is true, the property's invariant is true in every
/// marking that firing reaches from the net's initial marking.
pub fn shown_is_invariant()
    ensures { ShownIsInvariant }
{}

/// The definitions give the slack form of the ring's flow.
pub fn ring_slack_is_right()
    ensures { FlowSlackIsRight }
{}

/// The definitions give the ring's reports, where its flow holds and where it is broken.
pub fn ring_reports_are_right()
    ensures { ReportsAreRight }
{}
