use crate::compiled::CTerm;
use crate::conditions::CGuard;
use crate::variables::Variables;

/// Holds for a type whose values can be lent to several threads and sent between them.
fn is_shared<T: Send + Sync>() {}

/// Declared variables, compiled terms and compiled guards can be lent to jobs: this is refused where one can't.
pub fn compiled_terms_are_shared() {
    is_shared::<Variables>();
    is_shared::<CTerm>();
    is_shared::<CGuard>();
}
