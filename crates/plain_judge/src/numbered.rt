//! Flows whose places and names have numbers, so that each name is looked up once.
ghost use Rattle.std.specs.Prelude.{◌≡◌, ◌<◌, length, map, All, IfOk, slice_index_or};
ghost use Rattle.plain_judge.specs.Numbered.{AreNumbersOf, IsNumbered};
ghost use Rattle.plain_model.specs.Plain.{AreDistinct};

use crate::faults::JudgeFault;
use crate::naming::{names_of, places_of_flows};
use plain_model::{Flow, Weight};
use plain_rows::Numbers;
use sqlite_items::Items;
use std::alloc::Global;
use std::marker::Model;

/// A flow with the numbers of the places of its weights.
#[derive(Drop)]
pub struct NumberedFlow<'a> {
    ids: &'a Numbers<'a>,
    flow: &'a Flow,
    places: &'a [u32],
}

impl<'a> Model for NumberedFlow<'a> {
    ghost use Rattle.plain_judge.specs.Numbered.{FlowOver, IsNumbered};

    ghost Value = { FlowOver };

    ghost view = { λ f. record { ids = f.ids.now; flow = f.flow.now } };

    ghost invariant = { λ f. IsNumbered f.ids.now f.flow.now f.places.now };
}

impl<'a> NumberedFlow<'a> {
    /// A flow of the net whose places have these ids; `places` has the number of the place of each
    /// weight.
    pub fn new(ids: &'a Numbers<'a>, flow: &'a Flow, places: &'a [u32]) -> NumberedFlow<'a>
        requires { IsNumbered ids.now flow.now places.now }
        ensures ids { result.ids ≡ ids.now }
        ensures flow { result.flow ≡ flow.now }
    {
        NumberedFlow { ids, flow, places }
    }

    /// The name of the flow.
    pub fn name(&self) -> &[u8]
        ensures { result.now ≡ self.now.flow.name }
    {
        self.flow.name.bytes()
    }

    /// The weights of the flow.
    pub fn weights(&self) -> &[Weight]
        ensures { result.now ≡ self.now.flow.weights }
    {
        self.flow.weights.as_slice()
    }

    /// The number of the place of each weight.
    pub fn places(&self) -> &[u32]
        ensures numbers { AreNumbersOf self.now.ids self.now.flow.weights result.now }
        ensures distinct { AreDistinct self.now.ids }
        ensures within { All (λ place. place < length self.now.ids) result.now }
        ensures long { length result.now ≡ length self.now.flow.weights }
    {
        self.places
    }
}

/// The flows of a certificate, whose names are numbered, with the numbers of their places.
#[derive(Drop)]
pub struct NumberedFlows<'a> {
    ids: &'a Numbers<'a>,
    names: Numbers<'a>,
    flows: &'a [Flow],
    places: Items<Items<u32>>,
}

impl<'a> Model for NumberedFlows<'a> {
    ghost use Rattle.plain_judge.specs.Numbered.{FlowsOver, AreNumbered};

    ghost Value = { FlowsOver };

    ghost view = { λ f. record { ids = f.ids.now; flows = f.flows.now } };

    ghost invariant = { λ f. AreNumbered f.ids.now f.names f.flows.now f.places };
}

impl<'a> NumberedFlows<'a> {
    /// Looks up the names of the flows and of their places among `ids`, those of the net.
    ///
    /// `NotYet` comes where two flows have one name, or a place isn't one of the net.
    pub fn new(
        alloc: Global,
        ids: &'a Numbers<'a>,
        flows: &'a [Flow],
    ) -> Result<NumberedFlows<'a>, JudgeFault>
        requires { AreDistinct ids.now }
        ensures ids { IfOk result (λ numbered. numbered.ids ≡ ids.now) }
        ensures flows { IfOk result (λ numbered. numbered.flows ≡ flows.now) }
    {
        let names = names_of(alloc, flows)?;
        let places = places_of_flows(alloc, ids, flows)?;
        Ok(NumberedFlows {
            ids,
            names,
            flows,
            places,
        })
    }

    /// The ids of the net's places.
    pub fn ids(&self) -> &Numbers<'a>
        ensures ids { result.now ≡ self.now.ids }
        ensures distinct { AreDistinct result.now }
    {
        self.ids
    }

    /// The names of the flows.
    pub fn names(&self) -> &Numbers<'a>
        ensures names { result.now ≡ map (λ flow. flow.name) self.now.flows }
        ensures distinct { AreDistinct result.now }
    {
        &self.names
    }

    /// How many flows there are.
    pub fn count(&self) -> u32
        ensures { result ≡ length self.now.flows }
    {
        self.names.count()
    }

    /// The flow with this number.
    pub fn flow(&self, number: u32) -> NumberedFlow<'_>
        requires { number < length self.now.flows }
        ensures ids { result.ids ≡ self.now.ids }
        ensures flow { (d : _) → result.flow ≡ slice_index_or self.now.flows number d }
    {
        let number = number as usize;
        NumberedFlow::new(
            self.ids,
            &self.flows[number],
            self.places.as_slice()[number].as_slice(),
        )
    }
}
