//! The numbers of the flows' names and of their places.
ghost use Rattle.std.specs.Prelude.{◌≡◌, map, IfOk};
ghost use Rattle.plain_judge.specs.Numbered.{AreNumbersOf, ArePlacesOf};
ghost use Rattle.plain_model.specs.Plain.{AreDistinct};

use crate::faults::JudgeFault;
use name_tables::Added;
use plain_model::{Flow, Weight};
use plain_rows::Numbers;
use sqlite_items::Items;
use std::alloc::Global;
use wide_sums::Memory;

/// The names of the flows in their order. `NotYet` comes where two flows have one name.
pub fn names_of<'a>(alloc: Global, flows: &'a [Flow]) -> Result<Numbers<'a>, JudgeFault>
    ensures names { IfOk result (λ names. names ≡ map (λ flow. flow.name) flows.now) }
    ensures distinct { IfOk result AreDistinct }
{
    let mut names = Numbers::with_capacity(alloc, flows.len())?;
    for flow in flows {
        if names.count() >= u32::MAX - 1 {
            return Err(JudgeFault::NotYet);
        }
        match names.add(flow.name.bytes()) {
            Ok(Added::New(_)) => {}
            Ok(Added::Old(_)) => return Err(JudgeFault::NotYet),
            Err(Memory) => return Err(JudgeFault::Memory),
        }
    }
    Ok(names)
}

/// The number of the place of each weight. `NotYet` comes where one isn't there.
fn places_of(alloc: Global, ids: &Numbers<'_>, weights: &[Weight]) -> Result<Items<u32>, JudgeFault>
    requires { AreDistinct ids.now }
    ensures { IfOk result (AreNumbersOf ids.now weights.now) }
{
    let mut places = Items::from_vec(Vec::with_capacity(alloc, weights.len())?);
    let mut guess = 0u32;
    for weight in weights {
        match ids.find_near(weight.place.bytes(), guess) {
            Some(place) => {
                places.push(place)?;
                guess = place.wrapping_add(1);
            }
            None => return Err(JudgeFault::NotYet),
        }
    }
    Ok(places)
}

/// The numbers of the places of each flow. `NotYet` comes where one isn't there.
pub fn places_of_flows(
    alloc: Global,
    ids: &Numbers<'_>,
    flows: &[Flow],
) -> Result<Items<Items<u32>>, JudgeFault>
    requires { AreDistinct ids.now }
    ensures { IfOk result (ArePlacesOf ids.now flows.now) }
{
    let mut places = Items::from_vec(Vec::with_capacity(alloc, flows.len())?);
    for flow in flows {
        let each = places_of(alloc, ids, flow.weights.as_slice())?;
        places.push(each)?;
    }
    Ok(places)
}
