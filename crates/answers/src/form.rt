ghost use Rattle.std.specs.Prelude.{◌≡◌, length};
ghost use Rattle.answers.specs.Forms.{roles_of};

use crate::commands::Command;
use name_tables::Name;

/// A command line: the command, the names of its files, and how many workers it may take.
#[derive(Clone, Copy)]
pub struct Form<'a> {
    /// The command.
    pub command: Command,
    /// The names of its files, in the order of its roles.
    pub names: &'a [Name],
    /// The number of workers, from 1 to 64.
    pub workers: u32,
    ghost enough: { length names.now ≡ length (roles_of command) },
}
