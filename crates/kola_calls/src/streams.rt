//! Sources and sinks: that memory is found, that a failure is not tried again, and a flush.
ghost use Rattle.std.specs.Prelude.{◌<◌, IsErrOf, IsOk};

use kola_base::{
    CountSink, MemSink, MemSource, ReadAllFault, Sink, Source, StdSink, StdSource, SteadySource,
    WriteFault, read_all, write_all,
};
use std::alloc::Global;
use std::io;
use std::io::{ErrorKind, Read, Write};
use std::test::Fail;

const REPORT: &[u8; 20] = b"query: id\nsteps: 12\n";

#[test]
fn each_failing_read_is_told(rt: HostRuntime) -> Result<(), Fail> {
    let alloc = rt.alloc();
    // Five reads give a byte each, and the sixth finds the end.
    for fail in 1..9 {
        let mut source = MemSource::over(b"query".to_vec(alloc)?, 1, vec![in alloc; fail]?);
        match read_all(alloc, &mut source, 5) {
            Ok(bytes) => {
                assert!(rt; fail > 6);
                assert_eq!(rt; bytes.as_slice(), b"query".as_slice());
            }
            Err(fault) => {
                assert!(rt; fail <= 6);
                assert_eq!(rt; fault, ReadAllFault::Read);
            }
        }
    }
    Ok(())
}

/// Over a source that never fails no failure is told.
fn read_steadily(
    alloc: Global,
    source: &mut SteadySource,
    limit: usize,
) -> Result<Vec<u8>, ReadAllFault>
    requires { limit < usize.MAX }
    ensures { IsErrOf result ReadAllFault.Read → ⊥ }
{
    read_all(alloc, source, limit)
}

#[test]
fn the_limit_is_exact(rt: HostRuntime) -> Result<(), Fail> {
    let alloc = rt.alloc();
    for (size, limit) in [(0, 0), (1, 0), (8, 7), (8, 8), (8, 9)] {
        let bytes = vec![in alloc; 7u8; size]?;
        let mut source = SteadySource::over(bytes, 3);
        let read = read_steadily(alloc, &mut source, limit);
        if size > limit {
            assert_eq!(rt; read.err(), Some(ReadAllFault::TooLong));
        } else {
            assert_eq!(rt; read.map(|bytes| bytes.len()), Ok(size));
        }
    }
    Ok(())
}

/// To a sink that never fails all is written.
fn count(bytes: &[u8]) -> Result<(), WriteFault>
    ensures { IsOk result }
{
    write_all(&mut CountSink::new(), bytes)
}

#[test]
fn each_failing_write_is_told(rt: HostRuntime) -> Result<(), Fail> {
    let alloc = rt.alloc();
    // Three writes take 7, 7 and 6 bytes.
    for (fail, written) in [(1, 0), (2, 7), (3, 14), (4, 20)] {
        let mut sink = MemSink::over(alloc, 64, 7, vec![in alloc; fail]?)?;
        match write_all(&mut sink, REPORT) {
            Ok(()) => assert_eq!(rt; fail, 4),
            Err(fault) => assert_eq!(rt; fault, WriteFault { written }),
        }
        assert_eq!(rt; sink.bytes().len(), written);
        assert!(rt; REPORT.starts_with(sink.bytes()));
    }
    let mut full = MemSink::over(alloc, 10, 7, Vec::new(alloc))?;
    assert_eq!(rt;
        write_all(&mut full, REPORT),
        Err(WriteFault { written: 10 })
    );
    assert_eq!(rt; count(REPORT), Ok(()));
    Ok(())
}

/// A reader whose reads fail, and a writer that takes so many bytes and may refuse a flush.
#[derive(Drop)]
struct Broken {
    takes: usize,
    flushes: bool,
}

impl Read for Broken {
    fn read(&mut self, _buf: &mut [u8]) -> io::Result<usize> {
        Err(ErrorKind::Other.into())
    }
}

impl Write for Broken {
    fn write(&mut self, buf: &[u8]) -> io::Result<usize> {
        Ok(self.takes.min(buf.len()))
    }

    fn flush(&mut self) -> io::Result<()> {
        if self.flushes {
            Ok(())
        } else {
            Err(ErrorKind::Other.into())
        }
    }
}

#[test]
fn readers_and_writers_of_std(rt: HostRuntime) -> Result<(), Fail> {
    let alloc = rt.alloc();
    let bytes = read_all(alloc, &mut StdSource::over(REPORT.as_slice()), 20)?;
    assert_eq!(rt; bytes.as_slice(), REPORT.as_slice());
    let mut taken = Vec::new(alloc);
    assert_eq!(rt; write_all(&mut StdSink::over(&mut taken), &bytes), Ok(()));
    assert_eq!(rt; taken.as_slice(), REPORT.as_slice());

    let broken = Broken {
        takes: 0,
        flushes: true,
    };
    let read = read_all(alloc, &mut StdSource::over(broken), 20);
    assert_eq!(rt; read.err(), Some(ReadAllFault::Read));
    for (takes, flushes, written) in [(0, true, 0), (3, false, 0)] {
        let mut sink = StdSink::over(Broken { takes, flushes });
        assert_eq!(rt; write_all(&mut sink, REPORT), Err(WriteFault { written }));
        assert_eq!(rt; sink.write(&[]).is_ok(), flushes);
    }
    let slow = Broken {
        takes: 3,
        flushes: true,
    };
    assert_eq!(rt; write_all(&mut StdSink::over(slow), REPORT), Ok(()));
    Ok(())
}
