//! Readers and writers of std that fail once and would then serve: after an error they are not
//! asked again.
use std::alloc::Global;
use std::io::{self, ErrorKind, Read, Write};
use tk_streams::{LoadFault, Source, StdSource, StdTarget, Target, load, write_all};

// Passes one byte a call, fails at one call, and counts the calls.
#[derive(Clone, Copy)]
struct FailsOnce {
    calls: usize,
    fails_at: usize,
    kind: ErrorKind,
}

impl FailsOnce {
    // Fails at the call with this number, counted from 0, with an error of this kind.
    fn new(fails_at: usize, kind: ErrorKind) -> FailsOnce {
        FailsOnce {
            calls: 0,
            fails_at,
            kind,
        }
    }

    fn step(&mut self) -> io::Result<()> {
        let fails = self.calls == self.fails_at;
        self.calls = self.calls.saturating_add(1);
        if fails {
            return Err(io::Error::from(self.kind));
        }
        Ok(())
    }

    // Whether the call that failed was the last.
    fn was_left_alone(&self) -> bool {
        self.calls.checked_sub(1) == Some(self.fails_at)
    }
}

impl Read for FailsOnce {
    fn read(&mut self, buf: &mut [u8]) -> io::Result<usize> {
        self.step()?;
        if buf.is_empty() || 10 < self.calls {
            return Ok(0);
        }
        buf[0] = 7;
        Ok(1)
    }
}

impl Write for FailsOnce {
    fn write(&mut self, buf: &[u8]) -> io::Result<usize> {
        self.step()?;
        Ok(buf.len().min(1))
    }

    fn flush(&mut self) -> io::Result<()> {
        Ok(())
    }
}

// Whether a source answers an error of its reader at that call and from then on, and doesn't ask
// the reader again.
fn reads_no_more(alloc: Global, fails_at: usize, kind: ErrorKind) -> bool {
    let mut reader = FailsOnce::new(fails_at, kind);
    let mut source = StdSource::new(&mut reader);
    let loaded = load(alloc, &mut source, 100);
    let is_broken = source.is_broken() && source.read_some(&mut [0; 4]).is_err();
    matches!(loaded, Err(LoadFault::Device)) && is_broken && reader.was_left_alone()
}

// Whether a target answers an error of its writer at that call and from then on, and doesn't ask
// the writer again.
fn writes_no_more(fails_at: usize, kind: ErrorKind) -> bool {
    let mut writer = FailsOnce::new(fails_at, kind);
    let mut target = StdTarget::new(&mut writer);
    let written = write_all(&mut target, b"seven b");
    let is_broken = target.is_broken() && target.write_some(b"more").is_err();
    written.is_err() && is_broken && writer.was_left_alone()
}

// Whether both answer so at each of the first calls.
fn stop_at_each_call(alloc: Global, kind: ErrorKind) -> bool {
    for fails_at in 0..4 {
        if !reads_no_more(alloc, fails_at, kind) || !writes_no_more(fails_at, kind) {
            return false;
        }
    }
    true
}

#[test]
fn a_device_that_failed(rt: HostRuntime) {
    assert!(rt; stop_at_each_call(rt.alloc(), ErrorKind::Interrupted));
    assert!(rt; stop_at_each_call(rt.alloc(), ErrorKind::WouldBlock));
    assert!(rt; stop_at_each_call(rt.alloc(), ErrorKind::Other));
}
