use crate::verdicts::Verdict;

/// What a command says of its files, and the whole text that is to be written for it.
#[derive(Debug, Drop)]
pub struct Reply {
    /// What it says of them.
    pub verdict: Verdict,
    /// The text.
    pub text: Vec<u8>,
}
