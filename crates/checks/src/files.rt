// What no clause says: what the system's files and writers do.
mod faulty_system;

use faulty_system::FaultySystem;
use lua_num::ByteText;
use std::alloc::{AllocError, Global};
use std::io::{ErrorKind, Write};
use std::test::Fail;
use std::{env, fs, io};
use suite_io::{FileFault, Files, RealFiles, RealSink, Sink, SinkFault, Word};

fn word(alloc: Global, text: &str) -> Result<Word, AllocError> {
    String::from_str(alloc, text)
}

fn text(alloc: Global, bytes: &[u8]) -> Result<ByteText, AllocError> {
    ByteText::from_slice(alloc, bytes)
}

#[test]
fn real_files_read_and_write_the_system(rt: HostRuntime) -> Result<(), Fail> {
    let alloc = rt.alloc();
    let mut name = word(alloc, env::temp_dir(&rt)?.as_str())?;
    name.push_str("/suite_io_real_files")?;
    let mut files = RealFiles::new(alloc, &rt);

    fs::write(&rt, name.as_str(), b"\0\xff one")?;
    assert_eq!(rt; files.fetch(alloc, &name), Ok(text(alloc, b"\0\xff one")?));
    assert_eq!(rt; files.store(alloc, &name, b"two"), Ok(()));
    assert_eq!(rt; files.fetch(alloc, &name), Ok(text(alloc, b"two")?));

    fs::remove_file(&rt, name.as_str())?;
    assert_eq!(rt; files.fetch(alloc, &name), Err(FileFault::Failed));
    name.push_str("/below")?;
    assert_eq!(rt; files.store(alloc, &name, b"three"), Err(FileFault::Failed));

    let outcomes = files.calls().iter().map(|call| (call.store, call.failed));
    let wanted = [
        (false, false),
        (true, false),
        (false, false),
        (false, true),
        (true, true),
    ];
    assert_eq!(rt;
        outcomes.collect::<Vec<(bool, bool)>>(alloc)?.as_slice(),
        wanted.as_slice()
    );
    Ok(())
}

#[test]
fn a_file_that_never_ends_or_is_a_folder_is_failed(rt: HostRuntime) -> Result<(), Fail> {
    let alloc = rt.alloc();
    let mut files = RealFiles::new(alloc, &rt);
    for name in ["/dev/zero", "/"] {
        let answer = files.fetch(alloc, &word(alloc, name)?);
        assert_eq!(rt; answer, Err(FileFault::Failed), "{name}");
    }
    Ok(())
}

#[test]
fn real_files_list_each_fault_but_want_of_memory_in_a_fetch(rt: HostRuntime) -> Result<(), Fail> {
    let alloc = rt.alloc();
    let name = word(alloc, "a")?;
    for (kind, fault, listed) in [
        (ErrorKind::OutOfMemory, FileFault::OutOfMemory, 1),
        (ErrorKind::TimedOut, FileFault::Failed, 2),
    ] {
        let system = FaultySystem { kind };
        let mut files = RealFiles::new(alloc, &system);
        assert_eq!(rt; files.fetch(alloc, &name), Err(fault));
        assert_eq!(rt; files.store(alloc, &name, b"two"), Err(FileFault::Failed));
        assert_eq!(rt; files.calls().len(), listed);
        assert!(rt; files.calls().iter().all(|call| call.failed));
    }
    Ok(())
}

/// Takes at most two bytes at a call, then none, and then fails.
#[derive(Drop)]
struct Tiring {
    turn: u8,
}

impl Write for Tiring {
    fn write(&mut self, buf: &[u8]) -> io::Result<usize> {
        self.turn = self.turn.saturating_add(1);
        match self.turn {
            1 => Ok(buf.len().min(2)),
            2 => Ok(0),
            _ => Err(io::Error::from(ErrorKind::BrokenPipe)),
        }
    }

    fn flush(&mut self) -> io::Result<()> {
        Ok(())
    }
}

#[test]
fn a_real_sink_writes_and_tells_short_writes_from_faults(rt: HostRuntime) -> Result<(), Fail> {
    let mut written = Vec::new(rt.alloc());
    let mut sink = RealSink::new(&mut written);
    assert_eq!(rt; sink.put(b"one"), Ok(3));
    assert_eq!(rt; sink.put(b"two"), Ok(3));
    assert_eq!(rt; written.as_slice(), b"onetwo".as_slice());

    let mut tiring = RealSink::new(Tiring { turn: 0 });
    assert_eq!(rt; tiring.put(b"one"), Ok(2));
    assert_eq!(rt; tiring.put(b"e"), Err(SinkFault::Failed));
    assert_eq!(rt; tiring.put(b"e"), Err(SinkFault::Failed));
    Ok(())
}
