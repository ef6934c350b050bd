/// What a command line can ask for.
#[derive(Clone, Copy, Debug, PartialEq, Eq)]
pub enum Command {
    /// The canonical text of a net.
    Canon,
    /// The report on a net, a formula file and a certificate.
    Check,
}
