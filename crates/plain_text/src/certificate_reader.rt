ghost use Rattle.std.specs.Prelude.{◌≡◌, ◌≤◌, IfOk, length};
ghost use Rattle.std.specs.Bool.{OnTrue};
ghost use Rattle.plain_text.specs.Certificates.{certificate_text};

use crate::certificate_pieces::put_certificate;
use crate::comparison::{Comparison, Differs};
use crate::faults::TextFault;
use crate::source::{Source, id_of, index_of};
use plain_model::{Certificate, Factor, Flow, Multiplier, Weight};
use sqlite_items::Items;
use std::alloc::Global;

/// The certificate whose canonical text these bytes are.
///
/// `NotYet` where they are no such text, or an id or a number in it is out of form; `Memory` where
/// there isn't the memory for the certificate.
pub fn read_certificate(alloc: Global, bytes: &[u8]) -> Result<Certificate, TextFault>
    ensures { IfOk result (λ certificate. certificate_text certificate ≡ bytes.now) }
{
    let certificate = candidate(alloc, bytes)?;
    if is_text_of(&certificate, bytes) {
        Ok(certificate)
    } else {
        Err(TextFault::NotYet)
    }
}

fn is_text_of(certificate: &Certificate, bytes: &[u8]) -> bool
    ensures { OnTrue result (certificate_text certificate.now ≡ bytes.now) }
{
    let mut comparison = Comparison::new(bytes);
    match put_certificate(&mut comparison, certificate) {
        Ok(()) => comparison.is(bytes),
        Err(Differs) => false,
    }
}

fn candidate(alloc: Global, bytes: &[u8]) -> Result<Certificate, TextFault> {
    let mut source = Source::new(bytes);
    source.expect(b"certificate 1\nproperty ")?;
    let property = source.id(alloc, b'\n')?;
    let flows = take_flows(alloc, &mut source)?;
    source.expect(b"proof\nclose")?;
    let close = take_multipliers(alloc, source.until(b'\n')?)?;
    source.expect(b"end\n")?;
    source.end()?;
    Ok(Certificate {
        property,
        flows,
        close,
    })
}

fn take_flows(alloc: Global, source: &mut Source<'_>) -> Result<Items<Flow>, TextFault> {
    let mut flows = Vec::new(alloc);
    while source.skip(b"flow ") {
        flows.push(read_flow(alloc, source.until(b'\n')?)?)?;
    }
    Ok(Items::from_vec(flows))
}

fn read_flow(alloc: Global, words: &[u8]) -> Result<Flow, TextFault> {
    let mut line = Source::new(words);
    let name = id_of(alloc, line.word())?;
    let mut weights = Vec::new(alloc);
    while !line.is_empty() {
        weights.push(read_weight(alloc, line.word())?)?;
    }
    Ok(Flow {
        name,
        weights: Items::from_vec(weights),
    })
}

fn read_weight(alloc: Global, word: &[u8]) -> Result<Weight, TextFault> {
    let mut source = Source::new(word);
    let value = source.signed(b'*')?;
    let place = id_of(alloc, source.rest())?;
    Ok(Weight { value, place })
}

fn take_multipliers(alloc: Global, words: &[u8]) -> Result<Items<Multiplier>, TextFault> {
    let mut line = Source::new(words);
    let _spaced = line.skip(b" ");
    let mut multipliers = Vec::new(alloc);
    while !line.is_empty() {
        multipliers.push(read_multiplier(alloc, line.word())?)?;
    }
    Ok(Items::from_vec(multipliers))
}

fn read_multiplier(alloc: Global, word: &[u8]) -> Result<Multiplier, TextFault> {
    let mut source = Source::new(word);
    let value = source.signed(b'*')?;
    if source.skip(b"@") {
        let number = index_of(source.rest())?;
        return Ok(Multiplier::Hypothesis { value, number });
    }
    let fact = id_of(alloc, source.rest())?;
    Ok(Multiplier::Fact(Factor { value, fact }))
}
