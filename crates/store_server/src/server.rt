//! One line in, one answer out.

ghost use Rattle.std.specs.Prelude.{◌≡◌, IfOk, IfSome, Ok, None, true, is_some};
ghost use Rattle.binder_model.specs.Imports.{ImportsPass};
ghost use Rattle.binder_model.specs.World.{IsHistory};
ghost use Rattle.binder_model.specs.Run.{Run};
ghost use Rattle.binder_model.specs.Safe.{Safe};
ghost use Rattle.store_lines.specs.declared.reading.StoreLine.TheVariants as lines;
ghost use Rattle.store_server.specs.Serving.{IsStep, next_number};
ghost use Rattle.store_server.specs.Closing.{IsClosing};
ghost use Rattle.store_server.specs.Steps.Kept.{Answers};

use crate::open_store::OpenStore;
use crate::printing::{bad_text, closing_text, setup_text};
use call_types::setup::Setup;
use kube_types::copies::OutOfMemory;
use kube_types::text::Bytes;
use std::alloc::Global;
use std::marker::Model;
use std::mem::replace;
use store_asks::asks::StoreAsk;
use store_lines::faults::{LineFault, StoreLineError};
use store_lines::reading::{StoreLine, read_line};

/// A store that is served: whether it has a fence, how many lines it has read, and, once a setup was read, its history.
pub struct Server {
    alloc: Global,
    fenced: bool,
    lines: u64,
    store: Option<OpenStore>,
}

impl Drop for Server {
    fn drop(self) {
        let Server {
            alloc: _,
            fenced: _,
            lines: _,
            store,
        } = self;
        drop(store);
    }
}

impl Model for Server {
    ghost use Rattle.std.specs.Prelude.{IfSome, option_map};
    ghost use Rattle.store_server.specs.Serving.{Served};
    ghost use Rattle.store_server.specs.Steps.Kept.{OpenStands, opened_of};

    ghost Value = { Served };

    ghost view = { λ s. record { fenced = s.fenced; lines = s.lines; opened = option_map opened_of s.store } };

    ghost invariant = { λ s. IfSome s.store (OpenStands s.fenced) };
}

/// The number of the next line, which stands still at 2^64 - 1.
fn next_number(lines: u64) -> u64
    ensures { result ≡ next_number lines }
{
    lines.saturating_add(1)
}

impl Server {
    /// Before the first line.
    pub fn new(alloc: Global, fenced: bool) -> Server
        ensures { result ≡ record { fenced = fenced; lines = 0; opened = None } }
    {
        Server {
            alloc,
            fenced,
            lines: 0,
            store: None,
        }
    }

    /// Answers a setup.
    fn begin(&mut self, setup: &Setup) -> Result<Bytes, OutOfMemory>
        requires { ImportsPass setup.now.imports }
        ensures { IfOk result (Answers self.old self.new (Ok (lines.Setup setup.now))) }
    {
        if self.store.is_some() {
            return bad_text(self.alloc, self.lines, LineFault::SecondSetup);
        }
        let text = setup_text(self.alloc, setup)?;
        self.store = Some(OpenStore::new(self.alloc, setup)?);
        Ok(text)
    }

    /// Answers an ask. After want of memory there is no open store.
    fn ask(&mut self, asked: StoreAsk) -> Result<Bytes, OutOfMemory>
        ensures { IfOk result (Answers self.old self.new (Ok (lines.Ask asked))) }
    {
        match replace(&mut self.store, None) {
            None => bad_text(self.alloc, self.lines, LineFault::NoSetup),
            Some(store) => {
                let mut store = store;
                let text = store.ask(self.alloc, self.fenced, asked)?;
                self.store = Some(store);
                Ok(text)
            }
        }
    }

    /// Takes a line, without its line feed, and answers it by a line with its line feed. After want of memory nothing is
    /// said of the store.
    pub fn step(&mut self, line: &[u8]) -> Result<Bytes, OutOfMemory>
        ensures { IfOk result (IsStep self.old self.new line.now) }
    {
        self.lines = next_number(self.lines);
        match read_line(self.alloc, line) {
            Ok(StoreLine::Setup(setup)) => self.begin(&setup),
            Ok(StoreLine::Ask(asked)) => self.ask(asked),
            Err(StoreLineError::Refused(fault)) => bad_text(self.alloc, self.lines, fault),
            Err(StoreLineError::OutOfMemory) => Err(OutOfMemory),
        }
    }

    /// The text that ends the history: the line end, the objects and the numbers. Nothing where no setup was read.
    pub fn finish(&self) -> Result<Bytes, OutOfMemory>
        ensures { IfOk result (IsClosing self.now.opened) }
    {
        match &self.store {
            None => Bytes::new(self.alloc, b""),
            Some(store) => closing_text(self.alloc, &store.world),
        }
    }

    /// Whether a setup was read.
    pub fn has_begun(&self) -> bool
        ensures { result ≡ is_some self.now.opened }
    {
        self.store.is_some()
    }

    /// Each reply is the world's. With the fence the history is a run, and safe at every point, whatever was asked.
    #[tactic(auto, using(safety_law::proofs::Law::Law::run_implies_safe))]
    pub fn is_safe(&self)
        ensures history { IfSome self.now.opened (λ o. IsHistory o.setup o.past) }
        ensures run { self.now.fenced ≡ true → IfSome self.now.opened (λ o. Run o.setup o.past) }
        ensures safe { self.now.fenced ≡ true → IfSome self.now.opened (λ o. Safe o.setup o.past) }
    {
        if let Some(store) = &self.store {
            let _ = store.world.history();
        }
    }
}
