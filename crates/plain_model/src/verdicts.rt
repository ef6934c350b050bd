/// Whether an obligation is true, within sums of 128 bits.
#[derive(Clone, Copy, Debug, PartialEq, Eq)]
pub enum Check {
    /// Every listed sum is in range and the condition holds.
    True,
    /// A sign rule is broken, or the sums are in range and the condition fails.
    False,
    /// No sign rule is broken, and the absolute values of a listed sum add up past 2^127 - 1.
    Wide,
}

/// An obligation of a certificate.
#[derive(Clone, Copy, Debug, PartialEq, Eq)]
pub enum Spot {
    /// That firing this transition keeps the value of this flow; both count from 0 in file order.
    Step {
        /// The number of the flow.
        flow: u32,
        /// The number of the transition.
        transition: u32,
    },
    /// That the `close` line refutes the negated invariant.
    Close,
}

/// What the obligations show, taken in order: each flow with each transition, then `close`.
#[derive(Clone, Copy, Debug, PartialEq, Eq)]
pub enum Judged {
    /// Every obligation is true.
    Shown,
    /// The first one that isn't true is false.
    NotShown(Spot),
    /// The first one that isn't true is out of range.
    Range(Spot),
}
