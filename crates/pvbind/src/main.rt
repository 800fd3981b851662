//! The binder on standard input and output.
#![tactic(auto)]

use binder_console::console::pvbind;
use binder_console::status::Status;
use fault_io::gate::NoGate;
use fault_io::standard::{StdSink, StdSource};
use std::alloc::Global;
use std::env::{Args, Env, FillError};
use std::process::ExitCode;
use std::{env, io};

/// The words of the command line without the program's own name, which may be no UTF-8.
#[derive(Drop)]
struct AfterName<R: Env> {
    env: R,
}

impl<R: Env> Env for AfterName<R> {
    fn arg(&self, i: usize, buf: &mut [u8]) -> Result<usize, FillError> {
        self.env.arg(i.saturating_add(1), buf)
    }

    fn var(&self, name: &str, buf: &mut [u8]) -> Result<usize, FillError> {
        self.env.var(name, buf)
    }

    fn var_at(&self, i: usize, buf: &mut [u8]) -> Result<usize, FillError> {
        self.env.var_at(i, buf)
    }
}

/// The words. Where one of them is no UTF-8 there are none, since such a word is part of no command and
/// no words are no command either.
fn words_of(alloc: Global, args: io::Result<Args>) -> io::Result<Vec<String>> {
    let mut words = Vec::new(alloc);
    match args {
        Ok(args) => {
            for word in args {
                words.push(word)?;
            }
            Ok(words)
        }
        Err(error) if error.kind() == io::ErrorKind::InvalidData => Ok(words),
        Err(error) => Err(error),
    }
}

fn main(rt: HostRuntime) -> ExitCode {
    let after_name = (AfterName { env: &rt }, rt.alloc());
    let words = match words_of(rt.alloc(), env::args(&after_name)) {
        Ok(words) => words,
        Err(_) => return ExitCode::from(Status::Memory.number()),
    };
    let mut source = StdSource::new(rt.stdin());
    let mut sink = StdSink::new(rt.stdout());
    let status = pvbind(&rt, rt.alloc(), &words, &mut source, &mut sink, &NoGate);
    ExitCode::from(status.number())
}
