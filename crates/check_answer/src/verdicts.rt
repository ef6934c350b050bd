ghost use Rattle.std.specs.Prelude.{◌≡◌};
ghost use Rattle.check_answer.specs.Verdicts.{verdict_of};

use answers::Verdict;
use plain_model::Judged;

/// What the report says by what the obligations show.
pub fn verdict_of(judged: &Judged) -> Verdict
    ensures { result ≡ verdict_of judged.now }
{
    match judged {
        Judged::Shown => Verdict::Holds,
        Judged::NotShown(_) => Verdict::NotShown,
        Judged::Range(_) => Verdict::Range,
    }
}
