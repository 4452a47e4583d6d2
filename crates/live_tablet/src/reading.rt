//! Readers that read in threads of their own. They are of any type that may cross threads, so that no proof of theirs speaks of what one
//! consists of.
ghost use Rattle.live_tablet.specs.Reading.{AreSame};

use std::alloc::Global;
use std::thread;
use std::thread::Threads;
use tablet_io::Gate;

/// What reads to its end, and passes a gate on its way.
pub(crate) trait Reading<G: Gate> {
    /// Whether it is the same reader as before, but for what it has read.
    ghost same: { Self → Self → Type 0 };

    /// Reads to its end. It takes memory.
    fn read(&mut self, alloc: Global, gate: &G)
        ensures { same self.new self.old };
}

/// Has each of some readers read in a thread of its own.
pub(crate) fn read_all<R: Threads + Sync, G: Gate + Sync, S: Reading<G> + Send>(
    rt: &R,
    alloc: Global,
    readers: &mut [S],
    gate: &G,
)
    ensures { AreSame S.same readers.new readers.old }
{
    let threads = readers.len().max(1);
    thread::for_each_mut(
        rt,
        readers,
        threads,
        &|_, reader: &mut S| { reader.read(alloc, gate) },
    );
}
