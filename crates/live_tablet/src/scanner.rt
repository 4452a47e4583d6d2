//! Scanners that read beside a loader.
ghost use Rattle.std.specs.Prelude.{◌≡◌, ◌≤◌, false, IfOk, OnErr};
ghost use Rattle.tablet_io.specs.Causes.{Rose};
ghost use Rattle.tablet_view.specs.Extending.{Extends};
ghost use Rattle.tablet_view.specs.Snapshot.{Snapshot};
ghost use Rattle.live_tablet.specs.Scanners.{IsSameScanner, mode_of_number};
ghost use Rattle.live_tablet.specs.Scans.{new_scan};

use crate::reader::{LiveReader, Note};
use crate::reading::Reading;
use crate::scan::Scan;
use cell_key::NoMemory;
use std::alloc::Global;
use std::marker::Model;
use std::mem::replace;
use tablet_io::{Gate, Place};

/// Scans a tablet over what its reader sees. Its number tells its mode: even ones are isolated, odd ones plain.
#[derive(Drop)]
pub struct Scanner {
    number: u32,
    fetch: u64,
    reader: LiveReader,
    scan: Scan,
}

impl Model for Scanner {
    ghost use Rattle.tablet_view.specs.Extending.{Extends};
    ghost use Rattle.live_tablet.specs.Scanners.{ScannerState};

    ghost Value = { ScannerState };

    ghost view = { λ s. record { number = s.number; reader = s.reader; scan = s.scan } };

    ghost invariant = { λ s. Extends s.reader.newest s.scan.session.view };
}

impl Scanner {
    /// A scanner at the start of a scan, over the view that its reader sees first. It takes memory.
    #[tactic(auto, using(tablet_view::proofs::Orders::extends_refl))]
    pub fn open(
        alloc: Global,
        number: u32,
        reader: LiveReader,
        batch: u32,
    ) -> Result<Scanner, NoMemory>
        requires { 1 ≤ batch }
        ensures scan { IfOk result (λ scanner. (view : Snapshot) × Extends view reader.newest × (scanner.scan ≡ new_scan view (mode_of_number number) batch)) }
        ensures number { IfOk result (λ scanner. (scanner.number ≡ number) × (scanner.reader.tablet ≡ reader.tablet)) }
    {
        let mut reader = reader;
        let view = reader.view()?;
        let scan = Scan::open(alloc, view, number % 2 == 0, batch)?;
        Ok(Scanner {
            number,
            fetch: 0,
            reader,
            scan,
        })
    }

    /// The scan that it makes. It takes no memory.
    pub fn scan(&self) -> &Scan
        ensures { result.now ≡ self.now.scan }
    {
        &self.scan
    }

    /// The scan that it makes. It takes no memory.
    pub(crate) fn into_scan(self) -> Scan
        ensures { result ≡ self.scan }
    {
        self.scan
    }

    /// Takes in a note, where the reader allows it. It waits for nobody, and takes no memory.
    pub fn learn(&mut self, note: Note)
        requires { note.tablet ≡ self.old.reader.tablet }
        ensures same { IsSameScanner self.new self.old }
        ensures later { Extends self.new.reader.newest self.old.reader.newest }
    {
        if self.reader.allows(&note) {
            self.reader.learn(note);
        }
    }

    /// Begins a new scan, over the view that its reader sees now, and gives the one before. It takes memory; without it the
    /// scan goes on as before.
    #[tactic(auto, using(tablet_view::proofs::Orders::extends_refl, tablet_view::proofs::Orders::extends_trans))]
    pub fn start_again(&mut self, alloc: Global) -> Result<Scan, NoMemory>
        ensures given { IfOk result (λ scan. scan ≡ self.old.scan) }
        ensures scan { IfOk result (λ _. (view : Snapshot) × Extends view self.old.reader.newest
            × (self.new.scan ≡ new_scan view self.old.scan.session.mode self.old.scan.batch)) }
        ensures kept { (self.new.number ≡ self.old.number) × (self.new.reader.tablet ≡ self.old.reader.tablet) }
        ensures failed { OnErr result (self.new.scan ≡ self.old.scan) }
        ensures later { Extends self.new.reader.newest self.old.reader.newest }
    {
        let view = self.reader.view()?;
        let next = self.scan.anew(alloc, view)?;
        Ok(replace(&mut self.scan, next))
    }

    /// Passes the gate, and fetches a batch on the newest view that the reader sees. It takes memory.
    pub fn fetch<G: Gate>(&mut self, alloc: Global, gate: &G)
        ensures same { IsSameScanner self.new self.old }
        ensures asked { self.new.scan.failed ≡ false → Rose self.old.reader.questions self.new.reader.questions }
        ensures later { Extends self.new.reader.newest self.old.reader.newest }
    {
        self.fetch = self.fetch.saturating_add(1);
        gate.at(Place::Fetch {
            scanner: self.number,
            number: self.fetch,
        });
        self.scan.fetch(alloc, &mut self.reader);
    }

    /// Fetches until the scan is over. It takes memory.
    #[tactic(auto, using(crate::proofs::Scanners::same_refl, crate::proofs::Scanners::same_trans))]
    pub fn run<G: Gate>(&mut self, alloc: Global, gate: &G)
        ensures { IsSameScanner self.new self.old }
    {
        for _ in 0..u64::MAX {
            if self.scan.is_over() {
                return;
            }
            self.fetch(alloc, gate);
        }
    }
}

impl<G: Gate> Reading<G> for Scanner {
    ghost use Rattle.live_tablet.specs.Scanners.{IsSameScanner};

    ghost same = { IsSameScanner };

    fn read(&mut self, alloc: Global, gate: &G) {
        self.run(alloc, gate);
    }
}
