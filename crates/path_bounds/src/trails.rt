ghost use Rattle.std.specs.Prelude.{◌≡◌, ◌<◌, ◌≤◌, [], ◌∷◌, ◌++◌, take, Some, None, vec_len, vec_capacity};
ghost use Rattle.cert_model.specs.Paths.{least, lower_of, upper_of};
ghost use Rattle.path_bounds.specs.Following.{names_of, IsTrail};

/// A bound that was named, and the one that its place had before.
#[derive(Clone, Copy, Debug, PartialEq, Eq)]
pub(crate) struct Named<B> {
    /// The place.
    pub(crate) place: usize,
    /// The bound that was named.
    pub(crate) count: u64,
    /// The place's bound before.
    pub(crate) before: B,
}

// Puts a change into room that is there.
fn put<B: Copy>(trail: &mut Vec<Named<B>>, change: Named<B>)
    requires { vec_len trail.old < vec_capacity trail.old }
    ensures items { trail.new.items ≡ trail.old.items ++ change ∷ [] }
    ensures capacity { vec_capacity trail.old ≤ vec_capacity trail.new }
{
    match trail.push(change) {
        Ok(()) => {}
        Err(_) => unreachable!(),
    }
}

/// Names a lower bound.
pub(crate) fn name_lower(
    lower: &mut Vec<u64>,
    trail: &mut Vec<Named<u64>>,
    place: usize,
    count: u64,
)
    requires trail { IsTrail 0 lower_of lower.old.items trail.old.items }
    requires place { place < vec_len lower.old }
    requires room { vec_len trail.old < vec_capacity trail.old }
    ensures trail { IsTrail 0 lower_of lower.new.items trail.new.items }
    ensures named { names_of trail.new.items ≡ names_of trail.old.items ++ (place, count) ∷ [] }
    ensures places { vec_len lower.new ≡ vec_len lower.old }
    ensures capacity { vec_capacity trail.old ≤ vec_capacity trail.new }
{
    let before = lower[place];
    put(
        trail,
        Named {
            place,
            count,
            before,
        },
    );
    lower[place] = before.max(count);
}

/// Names an upper bound.
pub(crate) fn name_upper(
    upper: &mut Vec<Option<u64>>,
    trail: &mut Vec<Named<Option<u64>>>,
    place: usize,
    count: u64,
)
    requires trail { IsTrail None upper_of upper.old.items trail.old.items }
    requires place { place < vec_len upper.old }
    requires room { vec_len trail.old < vec_capacity trail.old }
    ensures trail { IsTrail None upper_of upper.new.items trail.new.items }
    ensures named { names_of trail.new.items ≡ names_of trail.old.items ++ (place, count) ∷ [] }
    ensures places { vec_len upper.new ≡ vec_len upper.old }
    ensures capacity { vec_capacity trail.old ≤ vec_capacity trail.new }
{
    let before = upper[place];
    put(
        trail,
        Named {
            place,
            count,
            before,
        },
    );
    upper[place] = Some(least(count, before));
}

// The least of the count and the bound, if there is one.
fn least(count: u64, bound: Option<u64>) -> u64
    ensures { Some result ≡ least count bound }
{
    match bound {
        Some(bound) => count.min(bound),
        None => count,
    }
}

/// Takes back the lower bounds behind the first ones, of which so many are left.
pub(crate) fn cut_lowers(lower: &mut Vec<u64>, trail: &mut Vec<Named<u64>>, left: usize)
    requires trail { IsTrail 0 lower_of lower.old.items trail.old.items }
    ensures trail { IsTrail 0 lower_of lower.new.items trail.new.items }
    ensures named { names_of trail.new.items ≡ take left (names_of trail.old.items) }
    ensures places { vec_len lower.new ≡ vec_len lower.old }
    ensures capacity { vec_capacity trail.new ≡ vec_capacity trail.old }
{
    while trail.len() > left {
        if let Some(change) = trail.pop() {
            lower[change.place] = change.before;
        }
    }
}

/// Takes back the upper bounds behind the first ones, of which so many are left.
pub(crate) fn cut_uppers(
    upper: &mut Vec<Option<u64>>,
    trail: &mut Vec<Named<Option<u64>>>,
    left: usize,
)
    requires trail { IsTrail None upper_of upper.old.items trail.old.items }
    ensures trail { IsTrail None upper_of upper.new.items trail.new.items }
    ensures named { names_of trail.new.items ≡ take left (names_of trail.old.items) }
    ensures places { vec_len upper.new ≡ vec_len upper.old }
    ensures capacity { vec_capacity trail.new ≡ vec_capacity trail.old }
{
    while trail.len() > left {
        if let Some(change) = trail.pop() {
            upper[change.place] = change.before;
        }
    }
}
