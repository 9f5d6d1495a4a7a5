ghost use Rattle.std.specs.Prelude.{[]};
ghost use Rattle.std.specs.Io.{WritesAtMost};

use fsc_base::{Name, NoMemory};
use fsc_outside::{
    DiskFiles, Files, Got, InputSource, OutputSink, Put, Sink, Source, Took, Wrote, write_whole,
};
use std::alloc::Global;
use std::io::{Error, ErrorKind, Read, Write};
use std::test::Fail;
use std::{env, fs, io};

/// The bytes of a file that was found, or a word for what came of the read.
fn told(got: &Got) -> &[u8] {
    match got {
        Got::Found(bytes) => bytes.as_slice(),
        Got::Absent => b"(absent)",
        Got::Failed => b"(failed)",
        Got::NoMemory => b"(no memory)",
    }
}

fn name(alloc: Global, text: &[u8]) -> Result<Name, NoMemory> {
    Name::from_slice(alloc, text)
}

#[test]
fn files_on_disk(rt: HostRuntime) -> Result<(), Fail> {
    let alloc = rt.alloc();
    let folder = env::temp_dir(&rt)?;
    let path = folder.join(alloc, "fsc_outside_test_file")?;
    let file = name(alloc, path.as_str().as_bytes())?;
    let mut files = DiskFiles::new(rt, alloc);
    assert_eq!(rt; files.write(&file, b"long text"), Put::Done);
    assert_eq!(rt; files.write(&file, b"text\0\xff"), Put::Done);
    assert_eq!(rt; told(&files.read(&file)), b"text\0\xff".as_slice());
    fs::remove_file(&rt, path.as_str())?;
    let long = [b'x'; 300];
    for (path, what) in [
        (file.as_slice(), b"(absent)".as_slice()),
        (b"/dev/null/x".as_slice(), b"(absent)".as_slice()),
        (b"a\0b".as_slice(), b"(absent)".as_slice()),
        (b"\xff".as_slice(), b"(absent)".as_slice()),
        (long.as_slice(), b"(absent)".as_slice()),
        (folder.as_str().as_bytes(), b"(failed)".as_slice()),
    ] {
        let read = files.read(&name(alloc, path)?);
        assert_eq!(rt; told(&read), what);
    }
    assert_eq!(rt; files.write(&name(alloc, b"\xff")?, b""), Put::Failed);
    assert_eq!(rt; (files.faults(), files.absences()), (2, 5));
    Ok(())
}

/// A reader and writer whose calls are interrupted once, then fail, and then move nothing.
#[derive(Drop)]
struct Faulty {
    calls: u8,
}

impl Faulty {
    fn answer(&mut self) -> io::Result<usize>
        ensures { WritesAtMost result [] }
    {
        self.calls = self.calls.saturating_add(1);
        match self.calls {
            1 => Err(Error::from(ErrorKind::Interrupted)),
            2 => Err(Error::from(ErrorKind::ConnectionReset)),
            _ => Ok(0),
        }
    }
}

impl Read for Faulty {
    fn read(&mut self, _buffer: &mut [u8]) -> io::Result<usize> {
        self.answer()
    }
}

impl Write for Faulty {
    fn write(&mut self, _piece: &[u8]) -> io::Result<usize> {
        self.answer()
    }

    fn flush(&mut self) -> io::Result<()> {
        Ok(())
    }
}

#[test]
fn sources_over_readers(rt: HostRuntime) {
    let mut source = InputSource::new(b"abc".as_slice());
    let mut buffer = [b'-'; 2];
    assert_eq!(rt; source.read(&mut buffer), Took::Moved(2));
    assert_eq!(rt; source.read(&mut buffer), Took::Moved(1));
    assert_eq!(rt; buffer, *b"cb");
    assert_eq!(rt; source.read(&mut buffer), Took::End);
    assert_eq!(rt; source.faults(), 0);

    let mut faulty = InputSource::new(Faulty { calls: 0 });
    assert_eq!(rt; faulty.read(&mut buffer), Took::Failed);
    assert_eq!(rt; faulty.read(&mut buffer), Took::End);
    assert_eq!(rt; faulty.faults(), 1);
}

#[test]
fn sinks_over_writers(rt: HostRuntime) {
    let mut bytes = Vec::new(rt.alloc());
    let mut sink = OutputSink::new(&mut bytes);
    assert_eq!(rt; write_whole(&mut sink, b"abc"), Wrote::Whole);
    assert_eq!(rt; write_whole(&mut sink, b"d"), Wrote::Whole);
    assert_eq!(rt; sink.faults(), 0);
    assert_eq!(rt; bytes.as_slice(), b"abcd".as_slice());

    let mut faulty = OutputSink::new(Faulty { calls: 0 });
    assert_eq!(rt; write_whole(&mut faulty, b"abc"), Wrote::Failed);
    assert_eq!(rt; write_whole(&mut faulty, b"abc"), Wrote::Failed);
    assert_eq!(rt; faulty.faults(), 2);
}
