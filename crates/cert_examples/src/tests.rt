use cert_reader::{
    Cert, CertFault, CertReader, FactKind, Multiplier, NodeForm, Section, Version, Weight,
    read_cert, read_factor, read_instance, read_place, write_cert,
};
use std::test::Fail;

const RING: &[u8] = b"certificate 1\nproperty P\nflow f 1*p0 1*p1\nproof\nclose 1*@1 -1*f\nend\n";

/// The longest text that is read at once.
const LONGEST: usize = 67_108_864;

/// The certificate of a text that isn't too long.
fn read(rt: &HostRuntime, text: &[u8]) -> Result<Cert, CertFault> {
    if text.len() > LONGEST {
        return Err(CertFault::Memory);
    }
    read_cert(rt.alloc(), text)
}

fn fault_of(rt: &HostRuntime, text: &[u8]) -> Option<CertFault> {
    match read(rt, text) {
        Ok(_) => None,
        Err(fault) => Some(fault),
    }
}

/// Whether each line, put between two texts, gives the fault, or a certificate where there is none.
fn all_give(
    rt: &HostRuntime,
    before: &[u8],
    lines: &[&[u8]],
    after: &[u8],
    fault: Option<CertFault>,
) -> Result<bool, Fail> {
    for line in lines {
        let mut text = Vec::from_slice(rt.alloc(), before)?;
        text.extend_from_slice(line)?;
        text.extend_from_slice(after)?;
        if fault_of(rt, text.as_slice()) != fault {
            return Ok(false);
        }
    }
    Ok(true)
}

/// Whether each line as the first fact, in line 3, gives the fault.
fn facts_give(rt: &HostRuntime, lines: &[&[u8]], fault: Option<CertFault>) -> Result<bool, Fail> {
    all_give(
        rt,
        b"certificate 1\nproperty P\n",
        lines,
        b"\nproof\nclose\nend\n",
        fault,
    )
}

/// Whether each line as the tree, in line 4, gives the fault.
fn nodes_give(rt: &HostRuntime, lines: &[&[u8]], fault: Option<CertFault>) -> Result<bool, Fail> {
    all_give(
        rt,
        b"certificate 1\nproperty P\nproof\n",
        lines,
        b"\nend\n",
        fault,
    )
}

/// Whether each text as a whole gives the fault.
fn texts_give(rt: &HostRuntime, texts: &[&[u8]], fault: Option<CertFault>) -> Result<bool, Fail> {
    all_give(rt, b"", texts, b"", fault)
}

fn line(number: u32) -> Option<CertFault> {
    Some(CertFault::Line { number })
}

#[test]
fn facts_that_are_read(rt: HostRuntime) -> Result<(), Fail> {
    let lines = [
        b"flow f".as_slice(),
        b"flow f 1*p",
        b"flow f -9223372036854775807*p@4294967295",
        b"flow f -0*p@00 007*q",
        b"\tflow  f \r",
        b"trap t",
        b"trap t p q@3 p",
        b"bound b 0",
        b"bound b -009223372036854775807",
        b"bound b -5 1*p\nstep t@0 1 0\nstep t@1 -1 0 2*b\nstep u@0 0 0",
        b"bound b 0\nstep t@004294967295 -0 9223372036854775807",
        b"flow end 1*proof\nflow flow",
        b"flow \xc3\xa9 1*\xe2\x82\xac",
        b"# any \xff\xfe bytes\nflow f\n\n  \t\r\n #\xff",
        b"bound b 0\n#\xff between a bound and its step\nstep t@0 1 0",
        b"flow f 9223372036854775807*p 9223372036854775807*q",
        b"flow f 9223372036854775807*p 0*p",
    ];
    assert!(rt; facts_give(&rt, &lines, None)?);
    Ok(())
}

#[test]
fn facts_out_of_form(rt: HostRuntime) -> Result<(), Fail> {
    let lines = [
        b"flow".as_slice(),
        b"flow f p",
        b"flow f f",
        b"flow f 1*",
        b"flow f *p",
        b"flow f +1*p",
        b"flow f --1*p",
        b"flow f 1**p",
        b"flow f 1*@1",
        b"flow f 9223372036854775808*p",
        b"flow f -9223372036854775808*p",
        b"flow f 1*p@",
        b"flow f 1*p@-1",
        b"flow f 1*p@+1",
        b"flow f 1*p@4294967296",
        b"flow f 1*p@18446744073709551616",
        b"flow f 1*p@1@1",
        b"flow f@1",
        b"flow f 1*\xff",
        b"Flow f",
        b"flows f",
        b"flow# f",
        b"trap",
        b"trap t 1*p",
        b"trap t p@-0",
        b"bound",
        b"bound b",
        b"bound b x",
        b"bound b 0 0",
        b"bound b +1",
        b"bound b 9223372036854775808",
        b"bound b -9223372036854775808 1*p",
        b"flow f\x0c1*p",
    ];
    assert!(rt; facts_give(&rt, &lines, line(3))?);
    Ok(())
}

#[test]
fn lines_out_of_place(rt: HostRuntime) -> Result<(), Fail> {
    let among_facts = [
        b"certificate 1".as_slice(),
        b"property P",
        b"step t@0 1 0",
        b"close",
        b"clash p",
        b"split 0",
        b"cases 1 0",
        b"each 1",
        b"end",
    ];
    assert!(rt; facts_give(&rt, &among_facts, line(3))?);
    let in_the_tree = [
        b"certificate 1".as_slice(),
        b"property P",
        b"flow f",
        b"trap t",
        b"bound b 0",
        b"step t@0 1 0",
        b"proof",
        b"end",
    ];
    assert!(rt; nodes_give(&rt, &in_the_tree, line(4))?);
    let alone = [
        b"property P".as_slice(),
        b"flow f",
        b"trap t",
        b"bound b 0",
        b"step t@0 1 0",
        b"proof",
        b"close",
        b"clash p",
        b"split 0",
        b"cases 1 0",
        b"each 1",
        b"end",
    ];
    assert!(rt; texts_give(&rt, &alone, line(1))?);
    let at_the_end = [
        b"certificate 1".as_slice(),
        b"property P",
        b"flow f",
        b"proof",
        b"close",
        b"end",
        b"\xff",
    ];
    assert!(rt;
        all_give(
            &rt,
            b"certificate 1\nproperty P\nproof\nclose\nend\n",
            &at_the_end,
            b"",
            line(6)
        )?
    );
    Ok(())
}

#[test]
fn steps_out_of_form(rt: HostRuntime) -> Result<(), Fail> {
    let lines = [
        b"flow f\nstep t@0 1 0".as_slice(),
        b"trap f\nstep t@0 1 0",
        b"bound b 0\nstep t 1 0",
        b"bound b 0\nstep t@0 1",
        b"bound b 0\nstep t@0",
        b"bound b 0\nstep",
        b"bound b 0\nstep t@0 1 0 b",
        b"bound b 0\nstep t@0 t@0 1 0",
        b"bound b 0\nstep t@0 1 0 2*@1",
        b"bound b 0\nstep t@-1 1 0",
        b"bound b 0\nstep t@4294967296 1 0",
        b"bound b 0\nstep t@0 9223372036854775808 0",
        b"bound b 0\nstep t@0 1 +1",
        b"bound b 0\nend",
        b"bound b 0\nclose",
        b"bound b 0\ncertificate 1",
        b"bound b 0\nproperty P",
        b"flow f\nproof 1",
        b"flow f\nproof proof",
    ];
    assert!(rt; facts_give(&rt, &lines, line(4))?);
    assert!(rt;
        facts_give(
            &rt,
            &[b"bound b 0\nstep t@0 1 0\ntrap c\nstep t@0 1 0".as_slice()],
            line(6)
        )?
    );
    Ok(())
}

#[test]
fn what_is_said_twice(rt: HostRuntime) -> Result<(), Fail> {
    let repeated = [
        b"flow f\nflow f".as_slice(),
        b"flow f\ntrap f p",
        b"flow f\nbound f 0",
        b"flow f\nflow f 9223372036854775807*p 1*p",
    ];
    assert!(rt; facts_give(&rt, &repeated, Some(CertFault::Repeated { number: 4 }))?);
    let again = [
        b"bound b 0\nstep t@0 1 0\nstep t@0 1 0".as_slice(),
        b"bound b 0\nstep t@0 1 0\nstep t@00 2 5 1*b",
        b"bound g -1 -1*p\nstep t@0 1 0\nstep t@0 1 0 9223372036854775807*g 1*g",
    ];
    assert!(rt; facts_give(&rt, &again, Some(CertFault::Repeated { number: 5 }))?);
    let apart = [
        b"bound b 0\nstep t@0 1 0\nbound c 0\nstep t@0 1 0".as_slice(),
        b"bound b 0\nstep t@0 1 0\nstep t@1 1 0\nstep u@0 1 0",
    ];
    assert!(rt; facts_give(&rt, &apart, None)?);
    Ok(())
}

#[test]
fn sums_that_are_too_large(rt: HostRuntime) -> Result<(), Fail> {
    let sums = [
        b"flow f 9223372036854775807*p 1*p".as_slice(),
        b"flow f 9223372036854775807*p0 1*p0",
        b"flow f 9223372036854775807*p -1*p",
        b"flow f 1*p@0 1*q 9223372036854775807*p@1",
        b"bound b 0 4611686018427387904*p 4611686018427387904*p",
    ];
    assert!(rt; facts_give(&rt, &sums, Some(CertFault::Coefficient { number: 3 }))?);
    let factors = [b"bound b 0\nstep t@0 1 0 9223372036854775807*b 1*b".as_slice()];
    assert!(rt; facts_give(&rt, &factors, Some(CertFault::Coefficient { number: 4 }))?);
    let in_nodes = [
        b"close 9223372036854775807*f -1*f".as_slice(),
        b"close 9223372036854775807*@1 1*@01",
        b"split 0 9223372036854775807*p 1*p",
    ];
    assert!(rt; nodes_give(&rt, &in_nodes, Some(CertFault::Coefficient { number: 4 }))?);
    Ok(())
}

#[test]
fn nodes_and_their_faults(rt: HostRuntime) -> Result<(), Fail> {
    let nodes = [
        b"close".as_slice(),
        b"close 1*@1 -1*f 0*@4294967295 -0*@007",
        b"close 9223372036854775807*f 9223372036854775807*@1 9223372036854775807*@2",
        b"clash p@0",
        b"clash p@00",
        b"split -1 1*p\nclose\nclash p",
        b"split -00\nsplit 0\nclose\nclose\nclose",
        b"cases 1 0",
        b"cases 4294967295 0",
        b"cases 01 02\neach 00\nclose\nclose",
        b"each 1\ncases 2 1\nclose",
    ];
    assert!(rt; nodes_give(&rt, &nodes, None)?);
    let faults = [
        b"close 1*p@0".as_slice(),
        b"close f",
        b"close 1*@",
        b"close 1*@-1",
        b"close 1*@4294967296",
        b"close 9223372036854775808*@1",
        b"clash",
        b"clash p p",
        b"clash 1*p",
        b"split",
        b"split 1*p",
        b"split 0 0",
        b"split 9223372036854775808",
        b"cases",
        b"cases 1",
        b"cases 1 4294967296",
        b"cases 4294967296 0",
        b"cases 1 0 0",
        b"cases -1 0",
        b"cases 1 -0",
        b"each",
        b"each 1 1",
        b"each -0",
        b"each 4294967296",
    ];
    assert!(rt; nodes_give(&rt, &faults, line(4))?);
    assert!(rt;
        nodes_give(
            &rt,
            &[b"split 0\nclose".as_slice(), b"cases 1 2\nclose"],
            line(6)
        )?
    );
    assert!(rt;
        nodes_give(
            &rt,
            &[b"close\nclose".as_slice(), b"cases 1 0\nclash p"],
            line(5)
        )?
    );
    Ok(())
}

#[test]
fn repeated_steps_large_sums_and_a_missing_tree(rt: HostRuntime) -> Result<(), Fail> {
    let step_twice: &[u8] =
        b"certificate 1\nproperty P\nbound g -1 -1*p\nstep t@0 1 0\nstep t@0 1 0\nproof\nclose 1*@1 1*g\nend\n";
    assert!(rt; fault_of(&rt, step_twice) == Some(CertFault::Repeated { number: 5 }));
    let large_sum: &[u8] =
        b"certificate 1\nproperty P\nflow f 9223372036854775807*p0 1*p0\nproof\nclose 1*@1 -1*f\nend\n";
    assert!(rt; fault_of(&rt, large_sum) == Some(CertFault::Coefficient { number: 3 }));
    let cut: &[u8] = b"certificate 1\nproperty P\nflow f 1*p0 1*p1\nproof\n";
    assert!(rt; fault_of(&rt, cut) == Some(CertFault::Line { number: 5 }));
    Ok(())
}

#[test]
fn whole_texts(rt: HostRuntime) -> Result<(), Fail> {
    let first = [
        b"".as_slice(),
        b"certificate 3\nend\n",
        b"certificate 02\nend\n",
        b"certificate 2 2\nend\n",
        b"certificate 01\n",
        b"certificate -1\n",
        b"certificate\n",
        b"certificate 1 1\n",
        b"\xff",
    ];
    assert!(rt; texts_give(&rt, &first, line(1))?);
    let second = [
        b"\n".as_slice(),
        b"certificate 1",
        b"certificate 1\nproof\n",
        b"certificate 1\nproperty\n",
        b"certificate 1\nproperty P Q\n",
        b"certificate 1\nproperty a*b\n",
        b"certificate 1\ncertificate 1\n",
    ];
    assert!(rt; texts_give(&rt, &second, line(2))?);
    let fifth = [
        b"certificate 1\nproperty P\nflow f 1*p0 1*p1\nproof\n".as_slice(),
        b"certificate 1\nproperty P\n\n# no tree\nend",
        b"certificate 1\nproperty P\nproof\nclose\nend end",
        b"certificate 1\nproperty P\nproof\nclose\n\xff#\n",
    ];
    assert!(rt; texts_give(&rt, &fifth, line(5))?);
    assert!(rt;
        texts_give(
            &rt,
            &[b"#\n#\ncertificate 1\nproperty P\nproof\nproof\n".as_slice()],
            line(6)
        )?
    );
    let read = [
        RING,
        b"certificate 1\nproperty P\nproof\nclose\nend",
        b"certificate 1\nproperty P\nproof\nclose\nend\n\n#\xff",
    ];
    assert!(rt; texts_give(&rt, &read, None)?);
    Ok(())
}

/// The certificate of the bytes, fed one by one.
fn read_slowly(rt: &HostRuntime, text: &[u8]) -> Result<Cert, CertFault> {
    if text.len() > LONGEST {
        return Err(CertFault::Memory);
    }
    let mut reader = CertReader::new(rt.alloc())?;
    for at in 0..text.len() {
        reader.feed(&text[at..at + 1])?;
    }
    reader.finish()
}

fn is_weight(weight: &Weight, value: i64, place: &[u8]) -> bool {
    weight.value == value && weight.place.place.bytes() == place && weight.place.colour.is_none()
}

/// Whether it is the ring's certificate, line numbers aside.
fn is_ring(cert: &Cert) -> bool {
    let ([fact], [section]) = (cert.facts.as_slice(), cert.sections.as_slice()) else {
        return false;
    };
    let [node] = section.tree.as_slice() else {
        return false;
    };
    let (FactKind::Flow(weights), NodeForm::Close(multipliers)) = (&fact.kind, &node.form) else {
        return false;
    };
    let ([first, second], [hypothesis, factor]) = (weights.as_slice(), multipliers.as_slice())
    else {
        return false;
    };
    cert.version == Version::One
        && section.property.bytes() == b"P".as_slice()
        && fact.name.bytes() == b"f".as_slice()
        && is_weight(first, 1, b"p0")
        && is_weight(second, 1, b"p1")
        && matches!(
            hypothesis,
            Multiplier::Hypothesis {
                value: 1,
                number: 1
            }
        )
        && matches!(factor, Multiplier::Fact(f) if f.value == -1 && f.fact.bytes() == b"f".as_slice())
}

/// Whether the only fact and the only node stand in these lines.
fn stand_in(cert: &Cert, fact_line: u32, node_line: u32) -> bool {
    let ([fact], [section]) = (cert.facts.as_slice(), cert.sections.as_slice()) else {
        return false;
    };
    match section.tree.as_slice() {
        [node] => fact.line == fact_line && section.line == 2 && node.line == node_line,
        _ => false,
    }
}

#[test]
fn the_ring_cut_after_every_byte(rt: HostRuntime) -> Result<(), Fail> {
    let whole = read(&rt, RING)?;
    assert!(rt; is_ring(&whole) && stand_in(&whole, 3, 5));
    let cut = read_slowly(&rt, RING)?;
    assert!(rt; is_ring(&cut) && stand_in(&cut, 3, 5));
    Ok(())
}

#[test]
fn the_ring_is_written_as_it_was_read(rt: HostRuntime) -> Result<(), Fail> {
    let cert = read(
        &rt,
        b"certificate 1\nproperty P\n# a comment\nflow f 1*p0 1*p1\nproof\nclose 1*@1 -1*f\nend\n",
    )?;
    assert!(rt; is_ring(&cert) && stand_in(&cert, 4, 6));
    let text = write_cert(rt.alloc(), &cert)?;
    assert_eq!(rt; text.as_slice(), RING);
    let again = read(&rt, text.as_slice())?;
    assert!(rt; is_ring(&again) && stand_in(&again, 3, 5));
    Ok(())
}

#[test]
fn every_kind_of_line_is_written(rt: HostRuntime) -> Result<(), Fail> {
    let cert = read(
        &rt,
        b"#\ncertificate 1\n property  P \r\ntrap t p q@03\nbound b -007 -0*p 1*q@1\nstep t@00 01 -0 2*b\n\
          proof\nsplit -1 1*p\ncases 1 02\nclash p@0\nclash q\neach 00\nclose -1*@1 1*b\nend",
    )?;
    let text = write_cert(rt.alloc(), &cert)?;
    assert_eq!(rt;
        text.as_slice(),
        b"certificate 1\nproperty P\ntrap t p q@3\nbound b -7 0*p 1*q@1\nstep t@0 1 0 2*b\n\
          proof\nsplit -1 1*p\ncases 1 2\nclash p@0\nclash q\neach 0\nclose -1*@1 1*b\nend\n"
            .as_slice()
    );
    let again = read(&rt, text.as_slice())?;
    let text_again = write_cert(rt.alloc(), &again)?;
    assert_eq!(rt; text_again.as_slice(), text.as_slice());
    Ok(())
}

#[test]
fn a_refused_reader_answers_the_same_fault(rt: HostRuntime) -> Result<(), Fail> {
    let mut reader = CertReader::new(rt.alloc())?;
    assert!(rt; reader.feed(b"certificate 1\nproperty P\ncl").is_ok());
    let fault = Err(CertFault::Line { number: 3 });
    assert_eq!(rt; reader.feed(b"ose\nend"), fault);
    assert_eq!(rt; reader.feed(b"\n"), fault);
    let answer = match reader.finish() {
        Ok(_) => Ok(()),
        Err(last) => Err(last),
    };
    assert_eq!(rt; answer, fault);
    Ok(())
}

/// Whether each text behind the line `certificate 2` gives the fault, or a certificate where there is none.
fn second_version_gives(
    rt: &HostRuntime,
    texts: &[&[u8]],
    fault: Option<CertFault>,
) -> Result<bool, Fail> {
    all_give(rt, b"certificate 2\n", texts, b"", fault)
}

#[test]
fn sections_that_are_read(rt: HostRuntime) -> Result<(), Fail> {
    let texts = [
        b"end".as_slice(),
        b"flow f\nend\n",
        b"bound b 0\nstep t@0 1 0\nend",
        b"property P\nproof\nclose\nend",
        b"flow f\nproperty f\nproof\nclose 1*f\nproperty g\nproof\nsplit 0\nclose\nclose\nend",
        b"trap t p\nbound b 0\nstep t@0 1 0 1*t\nproperty P\nproof\nclose\nproperty Q\nproof\nclash p\nend\n#\xff",
    ];
    assert!(rt; second_version_gives(&rt, &texts, None)?);
    Ok(())
}

#[test]
fn sections_out_of_place(rt: HostRuntime) -> Result<(), Fail> {
    let second = [
        b"".as_slice(),
        b"proof\nclose\nend\n",
        b"close\nend\n",
        b"step t@0 1 0\nend\n",
        b"certificate 2\nend\n",
    ];
    assert!(rt; second_version_gives(&rt, &second, line(2))?);
    let third = [
        b"property P\nflow f 1*p0 1*p1\nproof\nclose 1*@1 -1*f\nend\n".as_slice(),
        b"property P\nend\n",
        b"property P\nproperty Q\nproof\nclose\nend\n",
        b"property P\nclose\nend\n",
        b"property P",
        b"flow f\nproof\nclose\nend\n",
        b"flow f",
        b"end\nend",
    ];
    assert!(rt; second_version_gives(&rt, &third, line(3))?);
    let fourth = [
        b"property P\nproof\nend\n".as_slice(),
        b"property P\nproof\nproperty Q\nproof\nclose\nend\n",
        b"property P\nproof",
    ];
    assert!(rt; second_version_gives(&rt, &fourth, line(4))?);
    let fifth = [
        b"property P\nproof\nclose\nflow f\nend\n".as_slice(),
        b"property P\nproof\nclose\nstep t@0 1 0\nend\n",
        b"property P\nproof\nclose\nproof\nclose\nend\n",
        b"property P\nproof\nclose\nclose\nend\n",
        b"property P\nproof\nclose",
    ];
    assert!(rt; second_version_gives(&rt, &fifth, line(5))?);
    let in_second = [
        b"bound b 0\nproperty P\nproof\nclose\nproperty Q\nstep t@0 1 0\nproof\nclose\nend\n".as_slice(),
        b"flow f\nproperty P\nproof\nclose\nproperty Q\ntrap t p\nproof\nclose\nend\n",
    ];
    assert!(rt; second_version_gives(&rt, &in_second, line(7))?);
    let two_in_first: &[u8] =
        b"certificate 1\nproperty P\nproof\nclose\nproperty Q\nproof\nclose\nend\n";
    assert_eq!(rt; fault_of(&rt, two_in_first), line(5));
    Ok(())
}

#[test]
fn properties_that_are_named_twice(rt: HostRuntime) -> Result<(), Fail> {
    let fifth = [
        b"property P\nproof\nclose\nproperty P\nproof\nclose\nend\n".as_slice(),
        b"property P\nproof\nclose\nproperty P\nend\n",
    ];
    assert!(rt; second_version_gives(&rt, &fifth, Some(CertFault::Repeated { number: 5 }))?);
    let eighth = [
        b"property P\nproof\nclose\nproperty Q\nproof\nclose\nproperty P\n".as_slice(),
        b"property Q\nproof\nclose\nproperty P\nproof\nclose\nproperty P\n",
    ];
    assert!(rt; second_version_gives(&rt, &eighth, Some(CertFault::Repeated { number: 8 }))?);
    Ok(())
}

/// The ring with three properties, of which the tests also read a part.
const THREE: &[u8] = b"certificate 2\nflow f 1*p0 1*p1\nproperty P\nproof\nclose 1*@1 -1*f\n\
    property Q\nproof\nclose 1*@1 -1*f\nproperty S\nproof\nclose 1*@1 -1*f\nend\n";

fn is_section(section: &Section, line: u32, property: &[u8], node_line: u32) -> bool {
    let [node] = section.tree.as_slice() else {
        return false;
    };
    section.line == line && section.property.bytes() == property && node.line == node_line
}

/// Whether it has the flow and the three properties, in these lines.
fn is_three(cert: &Cert) -> bool {
    let ([fact], [first, second, third]) = (cert.facts.as_slice(), cert.sections.as_slice()) else {
        return false;
    };
    cert.version == Version::Two
        && fact.line == 2
        && is_section(first, 3, b"P", 5)
        && is_section(second, 6, b"Q", 8)
        && is_section(third, 9, b"S", 11)
}

#[test]
fn three_properties_with_one_flow(rt: HostRuntime) -> Result<(), Fail> {
    let whole = read(&rt, THREE)?;
    assert!(rt; is_three(&whole));
    let cut = read_slowly(&rt, THREE)?;
    assert!(rt; is_three(&cut));
    let again: &[u8] = b"certificate 2\nflow f 1*p0 1*p1\nproperty P\nproof\nclose 1*@1 -1*f\n\
        property Q\nproof\nclose 1*@1 -1*f\nproperty P\nproof\nclose 1*@1 -1*f\nend\n";
    assert_eq!(rt;
        fault_of(&rt, again),
        Some(CertFault::Repeated { number: 9 })
    );
    Ok(())
}

#[test]
fn sections_are_written_as_they_were_read(rt: HostRuntime) -> Result<(), Fail> {
    let cert = read(
        &rt,
        b"#\ncertificate 2\n flow  f 01*p0 1*p1\n\nproperty P\nproof\nclose 1*@1 -1*f\n#\n\
          property Q\nproof\nclose 1*@01 -1*f\nproperty S\nproof\nclose 1*@1 -1*f\nend",
    )?;
    let text = write_cert(rt.alloc(), &cert)?;
    assert_eq!(rt; text.as_slice(), THREE);
    let nothing = read(&rt, b"certificate 2\nend")?;
    assert!(rt; nothing.facts.as_slice().is_empty() && nothing.sections.as_slice().is_empty());
    let shortest = write_cert(rt.alloc(), &nothing)?;
    assert_eq!(rt; shortest.as_slice(), b"certificate 2\nend\n".as_slice());
    Ok(())
}

/// A certificate of two trees, each of which is the node, so many lines, and one `close` more.
fn two_trees(
    rt: &HostRuntime,
    nodes: [&[u8]; 2],
    line: &[u8],
    counts: [u32; 2],
) -> Result<Vec<u8>, Fail> {
    let mut text = Vec::from_slice(rt.alloc(), b"certificate 2\nproperty P\nproof\n")?;
    add_tree(&mut text, nodes[0], line, counts[0])?;
    text.extend_from_slice(b"property Q\nproof\n")?;
    add_tree(&mut text, nodes[1], line, counts[1])?;
    text.extend_from_slice(b"end\n")?;
    Ok(text)
}

fn add_tree(text: &mut Vec<u8>, node: &[u8], line: &[u8], count: u32) -> Result<(), Fail> {
    text.extend_from_slice(node)?;
    for _ in 0..count {
        text.extend_from_slice(line)?;
    }
    text.extend_from_slice(b"close\n")?;
    Ok(())
}

#[test]
fn the_depth_of_each_tree(rt: HostRuntime) -> Result<(), Fail> {
    let none: [&[u8]; 2] = [b"", b""];
    let deepest = two_trees(&rt, none, b"each 1\n", [255, 255])?;
    assert_eq!(rt; fault_of(&rt, deepest.as_slice()), None);
    let deeper = two_trees(&rt, none, b"each 1\n", [255, 256])?;
    assert_eq!(rt;
        fault_of(&rt, deeper.as_slice()),
        Some(CertFault::CertLimit { number: 518 })
    );
    Ok(())
}

#[test]
fn the_nodes_of_all_trees(rt: HostRuntime) -> Result<(), Fail> {
    let most: [&[u8]; 2] = [b"cases 1 524287\n", b"cases 1 524287\n"];
    let largest = two_trees(&rt, most, b"close\n", [524_286, 524_286])?;
    assert_eq!(rt; fault_of(&rt, largest.as_slice()), None);
    let more: [&[u8]; 2] = [b"cases 1 524287\n", b"cases 1 524288\n"];
    let larger = two_trees(&rt, more, b"close\n", [524_286, 524_287])?;
    assert_eq!(rt;
        fault_of(&rt, larger.as_slice()),
        Some(CertFault::CertLimit { number: 1_048_582 })
    );
    Ok(())
}

/// A certificate whose tree is the node, this many lines, and one `close` more.
fn long_tree(rt: &HostRuntime, node: &[u8], line: &[u8], count: u32) -> Result<Vec<u8>, Fail> {
    let mut text = Vec::from_slice(rt.alloc(), b"certificate 1\nproperty P\nproof\n")?;
    text.extend_from_slice(node)?;
    for _ in 0..count {
        text.extend_from_slice(line)?;
    }
    text.extend_from_slice(b"close\nend\n")?;
    Ok(text)
}

#[test]
fn the_depth_of_a_tree(rt: HostRuntime) -> Result<(), Fail> {
    let deepest = long_tree(&rt, b"", b"each 1\n", 255)?;
    assert_eq!(rt; fault_of(&rt, deepest.as_slice()), None);
    let deeper = long_tree(&rt, b"", b"each 1\n", 256)?;
    assert_eq!(rt;
        fault_of(&rt, deeper.as_slice()),
        Some(CertFault::CertLimit { number: 260 })
    );
    Ok(())
}

#[test]
fn the_nodes_of_a_tree(rt: HostRuntime) -> Result<(), Fail> {
    let largest = long_tree(&rt, b"cases 1 1048575\n", b"close\n", 1_048_574)?;
    assert_eq!(rt; fault_of(&rt, largest.as_slice()), None);
    let larger = long_tree(&rt, b"cases 1 1048576\n", b"close\n", 1_048_575)?;
    assert_eq!(rt;
        fault_of(&rt, larger.as_slice()),
        Some(CertFault::CertLimit { number: 1_048_580 })
    );
    Ok(())
}

#[test]
fn transition_instances(rt: HostRuntime) -> Result<(), Fail> {
    let words = [
        (b"t@0".as_slice(), 0),
        (b"t@00", 0),
        (b"t@4294967295", 4_294_967_295),
    ];
    for (word, binding) in words {
        let instance = read_instance(rt.alloc(), word)?;
        assert!(rt;
            matches!(&instance, Some(i) if i.transition.bytes() == b"t".as_slice() && i.binding == binding)
        );
    }
    let others = [
        b"".as_slice(),
        b"t",
        b"t@",
        b"@0",
        b"t@-0",
        b"t@4294967296",
        b"t@0@0",
        b"1*t@0",
        b"t@0 ",
    ];
    for word in others {
        assert!(rt; read_instance(rt.alloc(), word)?.is_none());
    }
    Ok(())
}

#[test]
fn places_and_colours(rt: HostRuntime) -> Result<(), Fail> {
    let whole = read_place(rt.alloc(), b"p0")?;
    assert!(rt;
        matches!(&whole, Some(p) if p.place.bytes() == b"p0".as_slice() && p.colour.is_none())
    );
    let coloured = read_place(rt.alloc(), b"p0@007")?;
    assert!(rt;
        matches!(&coloured, Some(p) if p.place.bytes() == b"p0".as_slice() && p.colour == Some(7))
    );
    for word in [
        b"".as_slice(),
        b"p@",
        b"p@x",
        b"p@4294967296",
        b"1*p",
        b"p q",
    ] {
        assert!(rt; read_place(rt.alloc(), word)?.is_none());
    }
    Ok(())
}

#[test]
fn multiples_of_facts(rt: HostRuntime) -> Result<(), Fail> {
    let factor = read_factor(rt.alloc(), b"-1*f")?;
    assert!(rt; matches!(&factor, Some(f) if f.value == -1 && f.fact.bytes() == b"f".as_slice()));
    let others = [
        b"f".as_slice(),
        b"1*",
        b"*f",
        b"+1*f",
        b"1*@1",
        b"1*f@0",
        b"9223372036854775808*f",
    ];
    for word in others {
        assert!(rt; read_factor(rt.alloc(), word)?.is_none());
    }
    Ok(())
}
