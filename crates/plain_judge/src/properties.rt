//! A property over the numbers of the places, so that each of its names is looked up once.
ghost use Rattle.std.specs.Prelude.{◌≡◌, map, IfOk, OnOk};
ghost use Rattle.plain_model.specs.Forms.{hypothesis_slack};
ghost use Rattle.plain_model.specs.Plain.{AreDistinct, IsPlainCount};

use crate::faults::JudgeFault;
use crate::residuals::empty_coefficients;
use crate::spreads::spread_hypothesis;
use plain_model::Property;
use plain_rows::Numbers;
use std::alloc::Global;
use std::marker::Model;

/// A property of a net, with the coefficient of each place in its negated invariant.
#[derive(Drop)]
pub struct NumberedProperty<'a> {
    ids: &'a Numbers<'a>,
    property: &'a Property,
    coefficients: Vec<i64>,
}

impl<'a> Model for NumberedProperty<'a> {
    ghost use Rattle.std.specs.Prelude.{◌≡◌, map};
    ghost use Rattle.plain_judge.specs.Numbered.{PropertyOver};
    ghost use Rattle.plain_model.specs.Forms.{hypothesis_slack};

    ghost Value = { PropertyOver };

    ghost view = { λ p. record { ids = p.ids.now; property = p.property.now } };

    ghost invariant = { λ p. p.coefficients.items ≡ map (hypothesis_slack p.property.now).coefficient p.ids.now };
}

impl<'a> NumberedProperty<'a> {
    /// Looks up the names that the property lists among `ids`, those of the net's places.
    ///
    /// `NotYet` comes where a number of its counts is above 2^63 - 1, or where a count lists no
    /// place, or one that isn't of the net.
    pub fn new(
        alloc: Global,
        ids: &'a Numbers<'a>,
        property: &'a Property,
    ) -> Result<NumberedProperty<'a>, JudgeFault>
        requires { AreDistinct ids.now }
        ensures ids { IfOk result (λ numbered. numbered.ids ≡ ids.now) }
        ensures property { IfOk result (λ numbered. numbered.property ≡ property.now) }
        ensures left { OnOk result (IsPlainCount ids.now property.now.left) }
        ensures right { OnOk result (IsPlainCount ids.now property.now.right) }
    {
        let mut coefficients = empty_coefficients(alloc, ids.count() as usize)?;
        spread_hypothesis(ids, property, &mut coefficients)?;
        Ok(NumberedProperty {
            ids,
            property,
            coefficients,
        })
    }

    /// The property itself.
    pub fn property(&self) -> &Property
        ensures { result.now ≡ self.now.property }
    {
        self.property
    }

    /// The coefficient of each place in the negated invariant.
    pub fn coefficients(&self) -> &[i64]
        ensures { result.now ≡ map (hypothesis_slack self.now.property).coefficient self.now.ids }
    {
        self.coefficients.as_slice()
    }
}
