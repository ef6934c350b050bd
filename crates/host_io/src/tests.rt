ghost use Rattle.std.specs.Prelude.{◌<◌, length, IsTrue, is_some, OnOk};

use crate::{Failed, Files, HostFiles, HostSink, MemFiles, MemSink, Sink};
use name_tables::Name;
use sqlite_items::Items;
use std::alloc::Global;
use std::test::Fail;
use std::{env, fs, io};
use wide_sums::Memory;

fn entry(alloc: Global, name: &[u8], bytes: &[u8]) -> Result<(Name, Items<u8>), Memory> {
    let name = Name::new(alloc, name)?;
    Ok((name, Items::from_slice(alloc, bytes)?))
}

/// Two files, and a second one of the first name, which is never held.
fn entries(alloc: Global) -> Result<Vec<(Name, Items<u8>)>, Memory> {
    let mut entries = Vec::new(alloc);
    entries.push(entry(alloc, b"net", b"hello")?)?;
    entries.push(entry(alloc, b"empty", b"")?)?;
    entries.push(entry(alloc, b"net", b"other")?)?;
    Ok(entries)
}

/// These files, whose reads give 2 and 3 bytes in turn, and whose call 2 fails.
fn cut_files(alloc: Global) -> Result<MemFiles, Memory> {
    let cuts = vec![in alloc; 2usize, 3]?;
    let failing = vec![in alloc; 2u64]?;
    Ok(MemFiles::new(entries(alloc)?, cuts, failing))
}

/// A sink of 6 bytes, whose puts take 2 and 3 bytes in turn, and whose call 2 fails.
fn cut_sink(alloc: Global) -> Result<MemSink, Memory> {
    let cuts = vec![in alloc; 2usize, 3]?;
    let failing = vec![in alloc; 2u64]?;
    MemSink::new(alloc, 6, cuts, failing)
}

/// Files without cuts, whose calls don't fail.
fn whole_files(alloc: Global) -> Result<MemFiles, Memory> {
    Ok(MemFiles::new(entries(alloc)?, Vec::new(alloc), Vec::new(alloc)))
}

/// Opens a file that is there.
fn open(alloc: Global, files: &mut MemFiles, name: &[u8]) -> Result<(), Fail>
    ensures { OnOk result (IsTrue (is_some files.new.current)) }
{
    let name = Name::new(alloc, name)?;
    files.open_file(&name)?;
    Ok(())
}

/// How many bytes a read into 8 zeros gives, and what stands there then.
fn read_eight(files: &mut MemFiles) -> Result<(usize, [u8; 8]), Failed>
    requires { IsTrue (is_some files.old.current) }
    ensures { IsTrue (is_some files.new.current) }
{
    let mut buffer = [0u8; 8];
    let count = files.read(&mut buffer)?;
    Ok((count, buffer))
}

/// What one put answers.
fn put(sink: &mut MemSink, piece: &[u8]) -> Result<usize, Failed>
    requires { 0 < length piece.now }
{
    sink.put(piece)
}

#[test]
fn reads_are_cut_and_listed_calls_fail(rt: HostRuntime) -> Result<(), Fail> {
    let alloc = rt.alloc();
    let mut files = cut_files(alloc)?;
    open(alloc, &mut files, b"net")?;
    assert_eq!(rt; read_eight(&mut files), Ok((3, *b"hel\0\0\0\0\0")));
    assert_eq!(rt; read_eight(&mut files), Err(Failed));
    assert_eq!(rt; files.faults(), 1);
    assert_eq!(rt; read_eight(&mut files), Ok((2, *b"lo\0\0\0\0\0\0")));
    assert_eq!(rt; read_eight(&mut files), Ok((0, [0; 8])));
    assert_eq!(rt; files.calls(), 5);
    Ok(())
}

#[test]
fn a_name_that_is_not_held_fails_without_a_fault(rt: HostRuntime) -> Result<(), Fail> {
    let alloc = rt.alloc();
    let mut files = whole_files(alloc)?;
    let missing = Name::new(alloc, b"other")?;
    assert_eq!(rt; files.open_file(&missing), Err(Failed));
    assert_eq!(rt; files.faults(), 0);
    open(alloc, &mut files, b"empty")?;
    assert_eq!(rt; read_eight(&mut files), Ok((0, [0; 8])));
    open(alloc, &mut files, b"net")?;
    assert_eq!(rt; read_eight(&mut files), Ok((5, *b"hello\0\0\0")));
    Ok(())
}

#[test]
fn puts_are_cut_and_fail_where_listed_or_without_room(rt: HostRuntime) -> Result<(), Fail> {
    let mut sink = cut_sink(rt.alloc())?;
    assert_eq!(rt; put(&mut sink, b"holds"), Ok(2));
    assert_eq!(rt; put(&mut sink, b"lds"), Ok(3));
    assert_eq!(rt; put(&mut sink, b"more"), Err(Failed));
    assert_eq!(rt; put(&mut sink, b"more"), Ok(1));
    assert_eq!(rt; put(&mut sink, b"ore"), Err(Failed));
    assert_eq!(rt; sink.bytes(), b"holdsm".as_slice());
    assert_eq!(rt; sink.faults(), 2);
    assert_eq!(rt; sink.calls(), 5);
    Ok(())
}

#[test]
fn a_file_of_the_system_is_read(rt: HostRuntime) -> Result<(), Fail> {
    let alloc = rt.alloc();
    let path = env::temp_dir(&rt)?.join(alloc, "host_io_reads_this.txt")?;
    let path = path
        .to_str()
        .ok_or("the folder of temporary files has no name")?;
    fs::write(&rt, path, "hello")?;
    let mut files = HostFiles::new(rt);
    let mut buffer = [0u8; 8];
    let missing = files.open_file(&Name::new(alloc, b"host_io_has_no_such_file")?);
    assert_eq!(rt; missing, Err(Failed));
    assert_eq!(rt; files.faults(), 1);
    files.open_file(&Name::new(alloc, path.as_bytes())?)?;
    assert_eq!(rt; files.read(&mut buffer), Ok(5));
    assert_eq!(rt; buffer, *b"hello\0\0\0");
    assert_eq!(rt; files.read(&mut buffer), Ok(0));
    assert_eq!(rt; files.faults(), 1);
    fs::remove_file(&rt, path)?;
    Ok(())
}

#[test]
fn standard_output_takes_bytes(rt: HostRuntime) -> Result<(), Fail> {
    let mut sink = HostSink::new(io::writer(&rt));
    assert_eq!(rt; sink.put(b"written\n"), Ok(8));
    assert_eq!(rt; sink.faults(), 0);
    Ok(())
}
