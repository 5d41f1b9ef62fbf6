use crate::host_files::{HostFiles, content, fill};
use crate::host_sink::{HostSink, offer};
use mpc_base::{Failed, Files, ReadAnswer, Sink, WriteAnswer};
use std::io::{Error, ErrorKind, Read, Write};
use std::test::Fail;
use std::{env, fs, io};

// What a read answered, in a form that compares.
fn told(rt: HostRuntime, answer: ReadAnswer) -> Result<String, Fail> {
    Ok(format!(in rt.alloc(); "{answer:?}")?)
}

#[test]
fn files_are_written_and_read_back(rt: HostRuntime) -> Result<(), Fail> {
    let place = format!(in rt.alloc(); "{}/mpc_host_files", env::temp_dir(&rt)?.as_str())?;
    let name = format!(in rt.alloc(); "{place}/kept")?;
    let below = format!(in rt.alloc(); "{name}/below")?;
    let absent = format!(in rt.alloc(); "{place}/absent")?;
    let _ = fs::remove_dir_all(&rt, place.as_str());
    fs::create_dir(&rt, place.as_str())?;
    let mut files = HostFiles::new(rt);

    assert_eq!(rt;
        files.write(rt.alloc(), name.as_str(), b"longer than the next"),
        WriteAnswer::Written
    );
    assert_eq!(rt;
        files.write(rt.alloc(), name.as_str(), b"kept"),
        WriteAnswer::Written
    );
    for (path, limit, want) in [
        (name.as_str(), 4, "Bytes([107, 101, 112, 116])"),
        (name.as_str(), usize::MAX, "Bytes([107, 101, 112, 116])"),
        (name.as_str(), 3, "TooLong"),
        (absent.as_str(), 9, "Missing"),
        ("", 9, "Missing"),
        (place.as_str(), 9, "Failed"),
        (below.as_str(), 9, "Failed"),
    ] {
        let answer = told(rt, files.read(rt.alloc(), path, limit))?;
        assert_eq!(rt; answer.as_str(), want, "at {path:?} with {limit}");
    }
    assert_eq!(rt;
        files.write(rt.alloc(), place.as_str(), b"x"),
        WriteAnswer::Failed
    );
    fs::remove_dir_all(&rt, place.as_str())?;
    Ok(())
}

#[test]
fn standard_output_takes_a_piece(rt: HostRuntime) {
    let mut out = HostSink::new(rt.stdout());
    assert_eq!(rt; out.write(b"taken\n"), Ok(6));
    assert_eq!(rt; out.write(b""), Ok(0));
}

// A source of `left` bytes that fails behind them, and a target that takes one byte a call, fails
// behind `left` of them, and is cut off by a signal before each call that it lets through.
#[derive(Drop)]
struct Broken {
    left: usize,
    is_cut_off: bool,
}

impl Read for Broken {
    fn read(&mut self, buf: &mut [u8]) -> io::Result<usize> {
        if self.left == 0 || buf.is_empty() {
            return Err(Error::from(ErrorKind::Other));
        }
        self.left -= 1;
        buf[0] = b'x';
        Ok(1)
    }
}

impl Write for Broken {
    fn write(&mut self, buf: &[u8]) -> io::Result<usize> {
        self.is_cut_off = !self.is_cut_off;
        if self.is_cut_off {
            return Err(Error::from(ErrorKind::Interrupted));
        }
        if self.left == 0 || buf.is_empty() {
            return Err(Error::from(ErrorKind::Other));
        }
        self.left -= 1;
        Ok(1)
    }

    fn flush(&mut self) -> io::Result<()> {
        Ok(())
    }
}

fn broken_behind(left: usize) -> Broken {
    Broken {
        left,
        is_cut_off: false,
    }
}

#[test]
fn a_fault_in_mid_stream_is_a_fault(rt: HostRuntime) -> Result<(), Fail> {
    for (limit, want) in [(9, "Failed"), (3, "Failed"), (2, "TooLong")] {
        let answer = told(rt, content(rt.alloc(), broken_behind(3), limit))?;
        assert_eq!(rt; answer.as_str(), want, "with {limit}");
    }
    assert_eq!(rt; fill(&mut broken_behind(3), b"four"), WriteAnswer::Failed);
    assert_eq!(rt; fill(&mut broken_behind(4), b"four"), WriteAnswer::Written);
    let mut target = broken_behind(1);
    assert_eq!(rt; offer(&mut target, b"two"), Ok(1));
    assert_eq!(rt; offer(&mut target, b"wo"), Err(Failed));
    Ok(())
}
