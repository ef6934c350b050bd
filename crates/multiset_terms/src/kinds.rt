ghost use Rattle.std.specs.Prelude.{◌≡◌, ◌<◌, ◌∷◌, [], length, drop};
ghost use Rattle.std.specs.List.{list_all};
ghost use Rattle.std.proofs.Common.{get_or};
ghost use Rattle.colour_sorts.specs.Comparing.{is_same_sort};
ghost use Rattle.colour_sorts.specs.declared.sorts.Sort.TheVariants as sort;
ghost use Rattle.multiset_terms.specs.Kinds.{block_kind_by, sum_kind_by};
ghost use Rattle.multiset_terms.specs.Typing.{can_be_compared, can_be_ordered, can_be_same, has_order as has_order_of, is_alike as are_alike, is_block as is_block_kind, is_choice as is_choice_kind, is_colour as is_colour_kind, is_cyclic as is_cyclic_sort, step_kind as step_kind_of, sort_of_kind, stands_over, sum_kind as sum_kind_of};

use colour_sorts::{Rule, Sort, same_sort};
use net_model::Order;
use sqlite_items::Items;

/// What a term is. Of the multisets those that are written as all colours of a sort are told apart.
#[derive(Debug, Drop)]
pub enum Kind {
    /// A colour of the sort.
    Colour(Sort),
    /// All colours of the sort.
    Every(Sort),
    /// A multiset over the sort.
    Multiset(Sort),
    /// A block of the partition at this position.
    Block(u32),
}

fn is_cyclic(sort: &Sort) -> bool
    ensures { result ≡ is_cyclic_sort sort.now }
{
    match sort {
        Sort::Cyclic(_) => true,
        _ => false,
    }
}

fn has_order(sort: &Sort) -> bool
    ensures { result ≡ has_order_of sort.now }
{
    match sort {
        Sort::Dot => false,
        Sort::Product(_) => false,
        _ => true,
    }
}

/// What the colour behind or before one is, or the rule that this breaks.
pub fn step_kind(kind: Kind) -> Result<Kind, Rule>
    ensures { result ≡ step_kind_of (kind ∷ []) }
{
    match kind {
        Kind::Colour(sort) => {
            if is_cyclic(&sort) {
                Ok(Kind::Colour(sort))
            } else {
                Err(Rule::NotCyclic)
            }
        }
        _ => Err(Rule::NotCyclic),
    }
}

/// What the difference of two terms is, or the rule that this breaks.
pub fn difference_kind(first: Kind, second: &Kind) -> Result<Kind, Rule>
    ensures { result ≡ sum_kind_of (first ∷ second.now ∷ []) }
{
    if is_block(&first) {
        return Err(Rule::NotAMultiset);
    }
    if is_block(second) {
        return Err(Rule::NotAMultiset);
    }
    if !is_alike(&first, second) {
        return Err(Rule::SortsDiffer);
    }
    Ok(Kind::Multiset(into_sort(first)))
}

/// What the sum of terms of these sorts is, or the rule that this breaks.
pub fn sum_kind(are_multisets: bool, sorts: Items<Sort>) -> Result<Kind, Rule>
    ensures { result ≡ sum_kind_by are_multisets sorts }
{
    if !are_multisets {
        return Err(Rule::NotAMultiset);
    }
    if sorts.is_empty() {
        return Err(Rule::NotAMultiset);
    }
    if !are_of_first(sorts.as_slice()) {
        return Err(Rule::SortsDiffer);
    }
    let mut sorts = sorts;
    Ok(Kind::Multiset(sorts.remove(0)))
}

fn are_of_first(sorts: &[Sort]) -> bool
    requires { 0 < length sorts.now }
    ensures { result ≡ list_all (is_same_sort (get_or sorts.now 0 sort.Dot)) (drop 1 sorts.now) }
{
    for at in 1..sorts.len() {
        if !same_sort(&sorts[0], &sorts[at]) {
            return false;
        }
    }
    true
}

/// What so many times a term is, or the rule that this breaks.
pub fn multiple_kind(kind: Kind) -> Result<Kind, Rule>
    ensures { result ≡ sum_kind_of (kind ∷ []) }
{
    match kind {
        Kind::Colour(sort) => Ok(Kind::Multiset(sort)),
        Kind::Every(sort) => Ok(Kind::Multiset(sort)),
        Kind::Multiset(sort) => Ok(Kind::Multiset(sort)),
        Kind::Block(_) => Err(Rule::NotAMultiset),
    }
}

/// What the block that has a term is, where a partition divides this sort, or the rule that this breaks.
pub fn block_kind(partition: u32, sort: &Sort, kind: Kind) -> Result<Kind, Rule>
    ensures { result ≡ block_kind_by partition sort.now kind }
{
    match kind {
        Kind::Colour(other) => {
            if same_sort(&other, sort) {
                Ok(Kind::Block(partition))
            } else {
                Err(Rule::SortsDiffer)
            }
        }
        _ => Err(Rule::NotAColour),
    }
}

/// Whether a term is a colour.
pub fn is_colour(kind: &Kind) -> bool
    ensures { result ≡ is_colour_kind kind.now }
{
    match kind {
        Kind::Colour(_) => true,
        _ => false,
    }
}

/// Whether a term is a colour or all colours of a sort.
pub fn is_choice(kind: &Kind) -> bool
    ensures { result ≡ is_choice_kind kind.now }
{
    match kind {
        Kind::Colour(_) => true,
        Kind::Every(_) => true,
        _ => false,
    }
}

/// The sort of what is no block, else that of the dot.
pub fn into_sort(kind: Kind) -> Sort
    ensures { result ≡ sort_of_kind kind }
{
    match kind {
        Kind::Colour(sort) => sort,
        Kind::Every(sort) => sort,
        Kind::Multiset(sort) => sort,
        Kind::Block(_) => Sort::Dot,
    }
}

/// Whether a term is a block.
pub fn is_block(kind: &Kind) -> bool
    ensures { result ≡ is_block_kind kind.now }
{
    match kind {
        Kind::Block(_) => true,
        _ => false,
    }
}

fn is_alike(first: &Kind, second: &Kind) -> bool
    ensures { result ≡ are_alike first.now second.now }
{
    match first {
        Kind::Block(at) => match second {
            Kind::Block(other) => *at == *other,
            _ => false,
        },
        Kind::Colour(sort) => is_over(sort, second),
        Kind::Every(sort) => is_over(sort, second),
        Kind::Multiset(sort) => is_over(sort, second),
    }
}

/// Whether what is no block stands over a sort.
pub fn is_over(sort: &Sort, kind: &Kind) -> bool
    ensures { result ≡ stands_over sort.now kind.now }
{
    match kind {
        Kind::Colour(other) => same_sort(sort, other),
        Kind::Every(other) => same_sort(sort, other),
        Kind::Multiset(other) => same_sort(sort, other),
        Kind::Block(_) => false,
    }
}

fn is_ordered(kind: &Kind) -> bool
    ensures { result ≡ has_order_of (sort_of_kind kind.now) }
{
    match kind {
        Kind::Colour(sort) => has_order(sort),
        Kind::Every(sort) => has_order(sort),
        Kind::Multiset(sort) => has_order(sort),
        Kind::Block(_) => false,
    }
}

/// Whether two terms can be compared, or the rule that this breaks.
pub fn compare_kinds(order: Order, first: &Kind, second: &Kind) -> Result<(), Rule>
    ensures { result ≡ can_be_compared order (first.now ∷ second.now ∷ []) }
{
    match order {
        Order::Equal => same_kinds(first, second),
        Order::Unequal => same_kinds(first, second),
        Order::Less => ordered_kinds(first, second),
        Order::LessEqual => ordered_kinds(first, second),
        Order::Greater => ordered_kinds(first, second),
        Order::GreaterEqual => ordered_kinds(first, second),
    }
}

fn same_kinds(first: &Kind, second: &Kind) -> Result<(), Rule>
    ensures { result ≡ can_be_same (first.now ∷ second.now ∷ []) }
{
    if !(is_colour(first) || is_block(first)) {
        return Err(Rule::NotAColour);
    }
    if !(is_colour(second) || is_block(second)) {
        return Err(Rule::NotAColour);
    }
    if !is_alike(first, second) {
        return Err(Rule::SortsDiffer);
    }
    Ok(())
}

fn ordered_kinds(first: &Kind, second: &Kind) -> Result<(), Rule>
    ensures { result ≡ can_be_ordered (first.now ∷ second.now ∷ []) }
{
    if !is_colour(first) {
        return Err(Rule::NotAColour);
    }
    if !is_colour(second) {
        return Err(Rule::NotAColour);
    }
    if !is_alike(first, second) {
        return Err(Rule::SortsDiffer);
    }
    if !is_ordered(first) {
        return Err(Rule::NoOrder);
    }
    Ok(())
}
