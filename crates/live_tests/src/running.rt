//! What scanners give beside a loader: two schedules, each held by a gate, and the numbers of mutations that each asks for.

ghost use Rattle.std.specs.Prelude.{◌≤◌, length};

use iter_config::read_config;
use live_script::{LiveShape, run_live};
use std::alloc::Global;
use std::sync::Wait;
use std::sync::atomic::{AtomicU64, Ordering};
use std::test::Fail;
use std::thread;
use std::thread::Threads;
use tablet_io::{Calls, Gate, MemSink, Place};

/// How often a held thread looks before it gives up.
const TURNS: u64 = 5_000_000;

const CONFIG: &[u8] =
    b"[[iterator]]\nname = \"hits\"\npriority = 10\nkind = \"sum\"\ncolumns = [\"hits\"]\nencoding = \"string\"\nscopes = [\"scan\", \"minc\", \"majc\"]\n";

const SCRIPT: &[u8] =
    b"m page/a +hits:2024-05-01:=3 +meta:title:=Home\nm page/b +hits:2024-05-01:=1\nm page/a +hits:2024-05-01:=2\nm page/b +meta:title:=Old\nm page/a +hits:2024-05-02:=4\nm page/b -meta:title:\nm page/b +hits:2024-05-01:=6\nm page/c +meta:title:=New\n";

/// Four chunks, and fetches of an entry.
const SHAPE: LiveShape = LiveShape {
    scanners: 1,
    chunk: 2,
    batch: 1,
};

/// What a gate has seen: whether the place that is waited for was reached, and whether a wait gave up.
#[derive(Drop)]
struct Held {
    fetched: AtomicU64,
    published: AtomicU64,
    late: AtomicU64,
}

impl Held {
    fn new() -> Held {
        Held {
            fetched: AtomicU64::new(0),
            published: AtomicU64::new(0),
            late: AtomicU64::new(0),
        }
    }

    /// Waits until a place was reached.
    fn wait_for(&self, reached: &AtomicU64) {
        for _ in 0..TURNS {
            if reached.load(Ordering::SeqCst) == 1 {
                return;
            }
            thread::yield_now();
        }
        self.late.store(1, Ordering::SeqCst);
    }

    fn is_late(&self) -> bool {
        self.late.load(Ordering::SeqCst) == 1
    }
}

/// Holds the second publish until the scanner comes to its second fetch, and that fetch until the third publish is reached.
#[derive(Drop)]
struct BetweenFetches {
    held: Held,
}

impl Gate for BetweenFetches {
    fn at(&self, place: Place) {
        match place {
            Place::Publish(2) => self.held.wait_for(&self.held.fetched),
            Place::Publish(3) => self.held.published.store(1, Ordering::SeqCst),
            Place::Fetch {
                scanner: 1,
                number: 2,
            } => {
                self.held.fetched.store(1, Ordering::SeqCst);
                self.held.wait_for(&self.held.published);
            }
            _ => {}
        }
    }
}

/// Holds the first fetch until the last publish is reached.
#[derive(Drop)]
struct BehindLoader {
    held: Held,
}

impl Gate for BehindLoader {
    fn at(&self, place: Place) {
        match place {
            Place::Publish(5) => self.held.published.store(1, Ordering::SeqCst),
            Place::Fetch {
                scanner: 1,
                number: 1,
            } => self.held.wait_for(&self.held.published),
            _ => {}
        }
    }
}

/// What a run writes under a gate.
fn text_under<R: Threads + Wait + Sync, G: Gate + Sync>(
    rt: &R,
    alloc: Global,
    gate: &G,
) -> Result<MemSink, Fail> {
    let config = read_config(alloc, CONFIG)?;
    let mut sink = MemSink::new(alloc, 4096, 4096, Calls::of(alloc, &[])?)?;
    run_live(rt, alloc, config, SCRIPT, SHAPE, &mut sink, gate)?;
    Ok(sink)
}

fn has(text: &[u8], part: &[u8]) -> bool
    requires { 1 ≤ length part.now }
{
    text.windows(part.len()).any(|window| window == part)
}

/// Whether the scanner gave its first entry at 2, and its second at one of the later publishes.
fn meets_later_view(text: &[u8]) -> bool {
    has(
        text,
        b"scanner 1 plain\nat 2\npage/a hits:2024-05-01: @1 =3\nat 4\n",
    ) || has(
        text,
        b"scanner 1 plain\nat 2\npage/a hits:2024-05-01: @1 =3\nat 6\n",
    ) || has(
        text,
        b"scanner 1 plain\nat 2\npage/a hits:2024-05-01: @1 =3\nat 8\n",
    )
}

/// Whether the scanner gave all at 8.
fn is_all_at_last(text: &[u8]) -> bool {
    has(text, b"scanner 1 plain\nat 8\n")
        && !has(text, b"\nat 2\n")
        && !has(text, b"\nat 4\n")
        && !has(text, b"\nat 6\n")
}

#[test]
fn a_scanner_meets_a_later_view(rt: HostRuntime) -> Result<(), Fail> {
    let gate = BetweenFetches { held: Held::new() };
    let written = text_under(&rt, rt.alloc(), &gate)?;
    assert!(rt; !gate.held.is_late());
    assert!(rt; meets_later_view(written.bytes()));
    Ok(())
}

#[test]
fn a_scanner_that_waits_sees_all(rt: HostRuntime) -> Result<(), Fail> {
    let gate = BehindLoader { held: Held::new() };
    let written = text_under(&rt, rt.alloc(), &gate)?;
    assert!(rt; !gate.held.is_late());
    assert!(rt; is_all_at_last(written.bytes()));
    Ok(())
}
