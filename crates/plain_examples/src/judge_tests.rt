ghost use Rattle.std.specs.Prelude.{◌≡◌};
ghost use Rattle.plain_model.specs.Plain.{IsPlainNet, place_ids};
ghost use Rattle.plain_rows.specs.Rows.{AreRowsOf};

use name_tables::Name;
use plain_judge::{JudgeFault, NumberedProperty, judge};
use plain_model::{
    Arc, Certificate, Count, Factor, Flow, Judged, Multiplier, Place, PlainNet, Property, Spot,
    Weight,
};
use plain_rows::{PlainRows, build};
use sqlite_items::Items;
use std::alloc::Global;
use std::test::Fail;
use wide_sums::Memory;

// An arc of weight 1.
fn arc(alloc: Global, id: &[u8], source: &[u8], target: &[u8]) -> Result<Arc, Memory> {
    Ok(Arc {
        id: Name::new(alloc, id)?,
        source: Name::new(alloc, source)?,
        target: Name::new(alloc, target)?,
        weight: 1,
    })
}

// A place `p` with a token and a place `q` without one, and a transition that moves the token.
fn mover(alloc: Global) -> Result<PlainNet, Memory> {
    let mut places = Items::new(alloc);
    for (id, marking) in [(b"p", 1), (b"q", 0)] {
        let id = Name::new(alloc, id.as_slice())?;
        places.push(Place { id, marking })?;
    }
    let mut transitions = Items::new(alloc);
    transitions.push(Name::new(alloc, b"t")?)?;
    let mut arcs = Items::new(alloc);
    arcs.push(arc(alloc, b"a1", b"p", b"t")?)?;
    arcs.push(arc(alloc, b"a2", b"t", b"q")?)?;
    Ok(PlainNet {
        id: Name::new(alloc, b"n")?,
        places,
        transitions,
        arcs,
    })
}

// `q <= 1`.
fn at_most_one(alloc: Global) -> Result<Property, Memory> {
    let mut listed = Items::new(alloc);
    listed.push(Name::new(alloc, b"q")?)?;
    Ok(Property {
        id: Name::new(alloc, b"P")?,
        left: Count::Tokens(listed),
        right: Count::Number(1),
    })
}

// The flow `1*p V*SECOND`, and the hypothesis less that flow.
fn certificate(alloc: Global, second: &[u8], value: i64) -> Result<Certificate, Memory> {
    let mut weights = Items::new(alloc);
    let place = Name::new(alloc, b"p")?;
    weights.push(Weight { value: 1, place })?;
    let place = Name::new(alloc, second)?;
    weights.push(Weight { value, place })?;
    let mut flows = Items::new(alloc);
    flows.push(Flow {
        name: Name::new(alloc, b"f")?,
        weights,
    })?;
    let mut close = Items::new(alloc);
    close.push(Multiplier::Hypothesis {
        value: 1,
        number: 1,
    })?;
    let fact = Name::new(alloc, b"f")?;
    close.push(Multiplier::Fact(Factor { value: -1, fact }))?;
    Ok(Certificate {
        property: Name::new(alloc, b"P")?,
        flows,
        close,
    })
}

// The judgement of the certificate for the property `q <= 1`.
fn judged_on(
    alloc: Global,
    net: &PlainNet,
    rows: &PlainRows<'_>,
    certificate: &Certificate,
) -> Result<Result<Judged, JudgeFault>, Fail>
    requires plain { IsPlainNet net.now }
    requires places { rows.now.places ≡ place_ids net.now }
    requires rows { AreRowsOf net.now rows.now.net }
{
    let property = at_most_one(alloc)?;
    let numbered = NumberedProperty::new(alloc, &rows.places, &property)?;
    Ok(judge(alloc, net, rows, &numbered, certificate))
}

// The judgement of the certificate with this second place and its coefficient.
fn judged_with(
    alloc: Global,
    second: &[u8],
    value: i64,
) -> Result<Result<Judged, JudgeFault>, Fail> {
    let net = mover(alloc)?;
    let rows = build(alloc, &net)?;
    let certificate = certificate(alloc, second, value)?;
    judged_on(alloc, &net, &rows, &certificate)
}

#[test]
fn the_first_untrue_obligation_decides(rt: HostRuntime) -> Result<(), Fail> {
    let step = Spot::Step {
        flow: 0,
        transition: 0,
    };
    assert_eq!(rt; judged_with(rt.alloc(), b"q", 1)?, Ok(Judged::Shown));
    assert_eq!(rt;
        judged_with(rt.alloc(), b"q", 2)?,
        Ok(Judged::NotShown(step))
    );
    Ok(())
}

#[test]
fn a_place_twice_on_a_line_is_not_yet(rt: HostRuntime) -> Result<(), Fail> {
    assert_eq!(rt; judged_with(rt.alloc(), b"p", 1)?, Err(JudgeFault::NotYet));
    Ok(())
}
