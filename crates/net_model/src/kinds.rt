/// The two types of nets.
#[derive(Clone, Copy, Debug, PartialEq, Eq)]
pub enum Kind {
    /// A place/transition net.
    Pt,
    /// A symmetric net.
    Symmetric,
}
