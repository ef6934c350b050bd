use crate::{
    Inputs, Keeper, MAX_BYTES, Role, Source, Stop, put_all, read_input, read_inputs, read_source,
};
use host_io::{Failed, MemFiles, MemSink};
use name_tables::Name;
use sqlite_items::Items;
use std::alloc::Global;
use std::test::Fail;
use wide_sums::Memory;

fn entry(alloc: Global, name: &[u8], bytes: &[u8]) -> Result<(Name, Items<u8>), Memory> {
    let name = Name::new(alloc, name)?;
    Ok((name, Items::from_slice(alloc, bytes)?))
}

/// A net and a certificate, read in pieces of 3 and 1 bytes. The call with this number fails.
fn cut_files(alloc: Global, failing: u64) -> Result<MemFiles, Memory> {
    let mut entries = Vec::new(alloc);
    entries.push(entry(alloc, b"n", b"a net")?)?;
    entries.push(entry(alloc, b"c", b"certificate")?)?;
    let cuts = vec![in alloc; 3usize, 1]?;
    let failing = vec![in alloc; failing]?;
    Ok(MemFiles::new(entries, cuts, failing))
}

/// The name `n` with so many bytes.
fn long_file(alloc: Global, count: usize) -> Result<MemFiles, Memory> {
    let bytes = vec![in alloc; b'#'; count]?;
    let mut entries = Vec::new(alloc);
    entries.push((Name::new(alloc, b"n")?, Items::from_vec(bytes)))?;
    Ok(MemFiles::new(entries, Vec::new(alloc), Vec::new(alloc)))
}

/// What reading three names answers.
fn read(
    alloc: Global,
    files: &mut MemFiles,
    names: (&[u8], &[u8], &[u8]),
) -> Result<Result<Inputs, Stop>, Memory> {
    let net = Name::new(alloc, names.0)?;
    let formula = Name::new(alloc, names.1)?;
    let certificate = Name::new(alloc, names.2)?;
    Ok(read_inputs(alloc, &net, &formula, &certificate, files))
}

/// How long the one file is, as it is read.
fn length_read(alloc: Global, files: &mut MemFiles) -> Result<Result<usize, Stop>, Memory> {
    let name = Name::new(alloc, b"n")?;
    match read_input(alloc, Role::Net, &name, files) {
        Ok(bytes) => Ok(Ok(bytes.len())),
        Err(stop) => Ok(Err(stop)),
    }
}

/// A sink of 20 bytes, whose puts take 2 and 3 bytes in turn. The call with this number fails.
fn cut_sink(alloc: Global, failing: u64) -> Result<MemSink, Memory> {
    let cuts = vec![in alloc; 2usize, 3]?;
    let failing = vec![in alloc; failing]?;
    MemSink::new(alloc, 20, cuts, failing)
}

#[test]
fn files_are_read_whole_in_pieces(rt: HostRuntime) -> Result<(), Fail> {
    let alloc = rt.alloc();
    let mut files = cut_files(alloc, 99)?;
    let inputs = read(alloc, &mut files, (b"n", b"n", b"c"))??;
    assert_eq!(rt; inputs.net(), b"a net".as_slice());
    assert_eq!(rt; inputs.formula(), b"a net".as_slice());
    assert_eq!(rt; inputs.certificate(), b"certificate".as_slice());
    let (_, _, certificate) = inputs.into_parts();
    assert_eq!(rt; certificate.as_slice(), b"certificate".as_slice());
    Ok(())
}

#[test]
fn after_a_stop_no_later_file_is_opened(rt: HostRuntime) -> Result<(), Fail> {
    let alloc = rt.alloc();
    let mut files = cut_files(alloc, 99)?;
    let stop = read(alloc, &mut files, (b"f", b"n", b"c"))?.err();
    assert_eq!(rt; stop, Some(Stop::Fault));
    assert_eq!(rt; files.faults(), 0);
    assert_eq!(rt; files.calls(), 1);
    let mut files = cut_files(alloc, 2)?;
    let stop = read(alloc, &mut files, (b"n", b"n", b"c"))?.err();
    assert_eq!(rt; stop, Some(Stop::Fault));
    assert_eq!(rt; files.faults(), 1);
    assert_eq!(rt; files.calls(), 3);
    Ok(())
}

#[test]
fn the_byte_past_the_limit_is_too_many(rt: HostRuntime) -> Result<(), Fail> {
    let alloc = rt.alloc();
    let mut files = long_file(alloc, MAX_BYTES)?;
    assert_eq!(rt; length_read(alloc, &mut files)?, Ok(MAX_BYTES));
    let mut files = long_file(alloc, MAX_BYTES + 1)?;
    assert_eq!(rt;
        length_read(alloc, &mut files)?,
        Err(Stop::TooLong(Role::Net))
    );
    assert_eq!(rt; files.calls(), 1026);
    let stop = read(alloc, &mut files, (b"n", b"n", b"n"))?.err();
    assert_eq!(rt; stop, Some(Stop::TooLong(Role::Net)));
    assert_eq!(rt; files.calls(), 2052);
    Ok(())
}

#[test]
fn a_text_is_put_whole_or_up_to_the_fault(rt: HostRuntime) -> Result<(), Fail> {
    let alloc = rt.alloc();
    let mut sink = cut_sink(alloc, 99)?;
    assert_eq!(rt; put_all(&mut sink, b"holds\nproperty"), Ok(()));
    assert_eq!(rt; sink.bytes(), b"holds\nproperty".as_slice());
    let mut sink = cut_sink(alloc, 2)?;
    assert_eq!(rt; put_all(&mut sink, b"holds\nproperty"), Err(Failed));
    assert_eq!(rt; sink.bytes(), b"holds".as_slice());
    Ok(())
}

/// What `n` with so many bytes comes to where it is fed to a reader that keeps them, and the calls that it took.
fn kept_length(
    alloc: Global,
    count: usize,
    room: usize,
) -> Result<(Result<usize, Stop>, u64), Memory> {
    let mut files = long_file(alloc, count)?;
    let name = Name::new(alloc, b"n")?;
    let mut buffer = vec![in alloc; 0u8; room]?;
    let source = Source {
        role: Role::Formula,
        name: &name,
    };
    let read = if buffer.is_empty() {
        Err(Stop::Fault)
    } else {
        read_source(alloc, source, &mut files, &mut buffer, Keeper::new(alloc))
    };
    let length = match read {
        Ok(Ok(bytes)) => Ok(bytes.len()),
        Ok(Err(Memory)) => Err(Stop::Memory),
        Err(stop) => Err(stop),
    };
    Ok((length, files.calls()))
}

#[test]
fn a_reader_is_fed_through_a_buffer_of_any_size(rt: HostRuntime) -> Result<(), Fail> {
    let alloc = rt.alloc();
    assert_eq!(rt; kept_length(alloc, 100, 1)?, (Ok(100), 102));
    assert_eq!(rt; kept_length(alloc, 100, 7)?, (Ok(100), 17));
    assert_eq!(rt; kept_length(alloc, 100, 65_536)?, (Ok(100), 3));
    Ok(())
}
