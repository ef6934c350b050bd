//! Laws over the definitions: each is the contract of a function that does nothing.
ghost use Rattle.commands.specs.Answers.{HoldsIsInvariant, TooLongIsTold};
ghost use Rattle.commands.specs.One.{AnswersAreOne, AnswersExist};

use check_answer::holds_is_invariant;
use doc_tree::documents_have_one_answer;

/// Where the answer to a command line is [`Outcome::Holds`](answers::Outcome::Holds), it is one of `check`, and its files have an
/// invariant.
pub fn holds_shows_an_invariant()
    ensures { HoldsIsInvariant }
{
    holds_is_invariant();
}

/// The answer to a command line is [`Outcome::TooLong`](answers::Outcome::TooLong) of a role exactly where the reading of its
/// files stops at that role.
pub fn too_long_is_told()
    ensures { TooLongIsTold }
{}

/// For told files a command line of no form, or of any command but `check`, has at most one outcome and one text. `check` may
/// still refuse any files as not taken yet.
pub fn answers_are_one()
    ensures { AnswersAreOne }
{
    documents_have_one_answer();
}

/// For told files each command line has an outcome and a text.
pub fn answers_exist()
    ensures { AnswersExist }
{
    documents_have_one_answer();
}
