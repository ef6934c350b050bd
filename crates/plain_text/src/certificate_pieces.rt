ghost use Rattle.std.specs.Prelude.{◌≡◌, ◌++◌, OnOk, flat_map};
ghost use Rattle.plain_text.specs.Certificates.{certificate_text, close_line, flow_line, head_lines, multiplier_word, weight_word};

use crate::comparison::{Comparison, Differs};
use plain_model::{Certificate, Flow, Multiplier, Weight};

/// Appends the canonical text of the certificate.
pub fn put_certificate(
    comparison: &mut Comparison<'_>,
    certificate: &Certificate,
) -> Result<(), Differs>
    ensures { OnOk result (comparison.new ≡ comparison.old ++ certificate_text certificate.now) }
{
    put_head(comparison, certificate.property.bytes())?;
    put_flows(comparison, certificate.flows.as_slice())?;
    comparison.put(b"proof\n")?;
    put_close(comparison, certificate.close.as_slice())?;
    comparison.put(b"end\n")?;
    Ok(())
}

fn put_head(comparison: &mut Comparison<'_>, property: &[u8]) -> Result<(), Differs>
    ensures { OnOk result (comparison.new ≡ comparison.old ++ head_lines property.now) }
{
    comparison.put(b"certificate 1\nproperty ")?;
    comparison.put(property)?;
    comparison.put(b"\n")?;
    Ok(())
}

fn put_flows(comparison: &mut Comparison<'_>, flows: &[Flow]) -> Result<(), Differs>
    ensures { OnOk result (comparison.new ≡ comparison.old ++ flat_map flow_line flows.now) }
{
    for flow in flows {
        put_flow(comparison, flow)?;
    }
    Ok(())
}

fn put_flow(comparison: &mut Comparison<'_>, flow: &Flow) -> Result<(), Differs>
    ensures { OnOk result (comparison.new ≡ comparison.old ++ flow_line flow.now) }
{
    comparison.put(b"flow ")?;
    comparison.put(flow.name.bytes())?;
    put_weights(comparison, flow.weights.as_slice())?;
    comparison.put(b"\n")?;
    Ok(())
}

fn put_weights(comparison: &mut Comparison<'_>, weights: &[Weight]) -> Result<(), Differs>
    ensures { OnOk result (comparison.new ≡ comparison.old ++ flat_map weight_word weights.now) }
{
    for weight in weights {
        put_weight(comparison, weight)?;
    }
    Ok(())
}

fn put_weight(comparison: &mut Comparison<'_>, weight: &Weight) -> Result<(), Differs>
    ensures { OnOk result (comparison.new ≡ comparison.old ++ weight_word weight.now) }
{
    comparison.put(b" ")?;
    comparison.put_signed(weight.value)?;
    comparison.put(b"*")?;
    comparison.put(weight.place.bytes())?;
    Ok(())
}

fn put_close(comparison: &mut Comparison<'_>, multipliers: &[Multiplier]) -> Result<(), Differs>
    ensures { OnOk result (comparison.new ≡ comparison.old ++ close_line multipliers.now) }
{
    comparison.put(b"close")?;
    put_multipliers(comparison, multipliers)?;
    comparison.put(b"\n")?;
    Ok(())
}

fn put_multipliers(
    comparison: &mut Comparison<'_>,
    multipliers: &[Multiplier],
) -> Result<(), Differs>
    ensures { OnOk result (comparison.new ≡ comparison.old ++ flat_map multiplier_word multipliers.now) }
{
    for multiplier in multipliers {
        put_multiplier(comparison, multiplier)?;
    }
    Ok(())
}

fn put_multiplier(comparison: &mut Comparison<'_>, multiplier: &Multiplier) -> Result<(), Differs>
    ensures { OnOk result (comparison.new ≡ comparison.old ++ multiplier_word multiplier.now) }
{
    match multiplier {
        Multiplier::Fact(factor) => {
            comparison.put(b" ")?;
            comparison.put_signed(factor.value)?;
            comparison.put(b"*")?;
            comparison.put(factor.fact.bytes())?;
        }
        Multiplier::Hypothesis { value, number } => {
            comparison.put(b" ")?;
            comparison.put_signed(*value)?;
            comparison.put(b"*@")?;
            comparison.put_number(u64::from(*number))?;
        }
    }
    Ok(())
}
