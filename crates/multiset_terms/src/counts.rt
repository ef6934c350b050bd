ghost use Rattle.std.specs.Prelude.{◌≡◌, ◌<◌, ◌^◌, Bool, IfOk};
ghost use Rattle.net_model.specs.declared.terms.Term.TheVariants as written;
ghost use Rattle.multiset_terms.specs.Context.{Context};
ghost use Rattle.multiset_terms.specs.Parts.{AreDistinct};
ghost use Rattle.multiset_terms.specs.Standing.{StandsFor};

use crate::compiled::CTerm;
use crate::trees::Tree;
use colour_sorts::Sort;
use sqlite_items::Boxed;
use std::alloc::Global;
use wide_sums::Memory;

/// So many times the dot, compiled without a written term. The number is at most 2^63 - 1.
pub fn dots(alloc: Global, number: u64) -> Result<CTerm, Memory>
    requires { number < 2 ^ 63 }
    ensures stands { IfOk result (λ made. (ctx : Context) (marking : Bool) → AreDistinct ctx → StandsFor ctx marking (written.NumberOf number written.Dot) made) }
    ensures gross { IfOk result (λ made. made.gross ≡ number) }
    ensures support { IfOk result (λ made. made.support ≡ 1) }
{
    let dot = Boxed::new(alloc, Tree::Constant(1, 0))?;
    Ok(CTerm {
        tree: Tree::Times(number, dot),
        sort: Sort::Dot,
        block: false,
        gross: number,
        support: 1,
    })
}
