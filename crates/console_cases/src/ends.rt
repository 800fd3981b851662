//! Sources and sinks by themselves: in memory, and over streams of std that break.

use crate::cases::{Case, source};
use fault_io::ends::{ReadError, Sink, Source, read_all, write_all};
use fault_io::memory::MemorySink;
use fault_io::standard::{StdSink, StdSource};
use plain_data::copies::OutOfMemory;
use std::alloc::Global;
use std::io::{Error, ErrorKind, Read, Write};

/// What reading all of the input comes to, at most as many bytes as the limit.
pub fn read(alloc: Global, case: Case<'_>) -> Result<String, OutOfMemory> {
    let mut source = source(alloc, case)?;
    let told = match read_all(alloc, &mut source, case.limit) {
        Ok(_) => "Ok",
        Err(ReadError::OutOfMemory) => return Err(OutOfMemory),
        Err(ReadError::TooLong) => "TooLong",
        Err(ReadError::ReadFault) => "ReadFault",
    };
    let faults = source.faults();
    let left = source.left().len();
    Ok(format!(in alloc; "{told} faults {faults} left {left}")?)
}

/// What is written where the text is written as often as it stands in the input.
pub fn write(alloc: Global, case: Case<'_>) -> Result<String, OutOfMemory> {
    let mut sink = MemorySink::new(alloc, case.limit)?;
    let mut whole: usize = 0;
    for _ in 0..case.times {
        if write_all(&mut sink, case.text.as_bytes()).is_ok() {
            whole = whole.saturating_add(1);
        }
    }
    let faults = sink.faults();
    let room = sink.room();
    let written = sink.written().len();
    Ok(format!(in alloc; "whole {whole} faults {faults} room {room} written {written}")?)
}

/// Is interrupted at the first calls, gives and takes one byte at the next, and fails from then on.
#[derive(Drop)]
struct Broken {
    interrupts: u64,
    calls: u64,
}

impl Broken {
    fn new(interrupts: u64) -> Broken {
        Broken {
            interrupts,
            calls: 0,
        }
    }

    /// Counts the call, and says how it ends where it is interrupted.
    fn begin(&mut self) -> std::io::Result<()> {
        self.calls = self.calls.saturating_add(1);
        if self.calls <= self.interrupts {
            return Err(Error::from(ErrorKind::Interrupted));
        }
        Ok(())
    }

    fn is_spent(&self) -> bool {
        self.calls > self.interrupts.saturating_add(1)
    }
}

impl Read for Broken {
    fn read(&mut self, buf: &mut [u8]) -> std::io::Result<usize> {
        self.begin()?;
        if self.is_spent() || buf.is_empty() {
            return Err(Error::from(ErrorKind::BrokenPipe));
        }
        buf[0] = 7;
        Ok(1)
    }
}

impl Write for Broken {
    fn write(&mut self, buf: &[u8]) -> std::io::Result<usize> {
        self.begin()?;
        if self.is_spent() || buf.is_empty() {
            return Ok(0);
        }
        Ok(1)
    }

    fn flush(&mut self) -> std::io::Result<()> {
        Ok(())
    }
}

/// Two reads of a source whose second one breaks, and whose first one is interrupted so often.
pub fn broken_source(alloc: Global, interrupts: u64) -> Result<String, OutOfMemory> {
    let mut source = StdSource::new(Broken::new(interrupts));
    let mut buf = [0u8; 4];
    let first = source.read(&mut buf).unwrap_or(0);
    let fails = source.read(&mut buf).is_err();
    let faults = source.faults();
    Ok(format!(in alloc; "{first} {fails} faults {faults}")?)
}

/// Two writes into a sink whose second one breaks, and whose first one is interrupted so often.
pub fn broken_sink(alloc: Global, interrupts: u64) -> Result<String, OutOfMemory> {
    let mut sink = StdSink::new(Broken::new(interrupts));
    let first = sink.write(b"abcd").unwrap_or(0);
    let fails = sink.write(b"abcd").is_err();
    let faults = sink.faults();
    Ok(format!(in alloc; "{first} {fails} faults {faults}")?)
}
