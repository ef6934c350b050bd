ghost use Rattle.std.specs.Prelude.{◌≡◌, ◌<◌, ◌^◌, None, IfOk, IfErr};
ghost use Rattle.multiset_terms.specs.Context.{Context};
ghost use Rattle.multiset_terms.specs.Parts.{IsScope};
ghost use Rattle.multiset_terms.specs.Usable.{IsUsable};
ghost use Rattle.net_typing.specs.Rules.{IsRefusal, first_over, place_refusal};
ghost use Rattle.net_typing.specs.Standing.{AreTyped, IsPlaceAnswer, IsPlaceTyping};

use crate::faults::{NetFault, Unfit};
use crate::inscribed::Inscribed;
use crate::scope::Scope;
use crate::sorts::SharedSort;
use net_model::Place;
use std::alloc::Global;

/// A place as it is typed.
#[derive(Debug, Drop)]
pub struct PlaceTyping {
    /// The sort of its colours.
    pub sort: SharedSort,
    /// How many colours the sort has, from 1 to 2^20.
    pub size: u32,
    /// The initial marking.
    pub marking: Inscribed,
}

/// A place with its sort and its marking, or the first rule that it breaks.
fn typed_place(alloc: Global, scope: &Scope, place: &Place) -> Result<PlaceTyping, Unfit>
    requires { IsUsable scope.now.domains scope.now.variables }
    ensures { (ctx : Context) → IsScope ctx scope.now.domains scope.now.variables → IsPlaceAnswer ctx scope.now.domains place.now result }
{
    let sort = match SharedSort::of(alloc, &scope.domains, &place.sort) {
        Ok(sort) => sort,
        Err(fault) => return Err(Unfit::of_sort(fault)),
    };
    let known = sort.get(&scope.domains);
    let size = scope.domains.size(known);
    match Inscribed::marking(alloc, scope, known, &place.marking) {
        Ok(marking) => Ok(PlaceTyping {
            sort,
            size,
            marking,
        }),
        Err(unfit) => Err(unfit),
    }
}

/// The places with their sorts and markings, or the first place that breaks a rule or is marked with too many elements.
pub fn typed_places(
    alloc: Global,
    scope: &Scope,
    places: &[Place],
) -> Result<Vec<PlaceTyping>, NetFault>
    requires { IsUsable scope.now.domains scope.now.variables }
    ensures places { (ctx : Context) → IsScope ctx scope.now.domains scope.now.variables → IfOk result (λ typed. AreTyped (IsPlaceTyping ctx scope.now.domains) places.now typed.items) }
    ensures sound { (ctx : Context) → IsScope ctx scope.now.domains scope.now.variables → IfOk result (λ typed. first_over (place_refusal ctx) places.now ≡ None) }
    ensures refused { (ctx : Context) → IsScope ctx scope.now.domains scope.now.variables → IfErr result (IsRefusal (first_over (place_refusal ctx) places.now)) }
{
    let mut typed = Vec::with_capacity(alloc, places.len())?;
    for place in places {
        match typed_place(alloc, scope, place) {
            Ok(place) => typed.push(place)?,
            Err(unfit) => return Err(unfit.of(alloc, &place.id)),
        }
    }
    Ok(typed)
}
