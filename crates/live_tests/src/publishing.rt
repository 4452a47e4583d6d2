//! What readers see of a tablet that is loaded.
ghost use Rattle.std.specs.Prelude.{◌≡◌};
ghost use Rattle.tablet_view.specs.Extending.{Extends};

use crate::fixtures::{config, put};
use cell_key::NoMemory;
use iter_config::ConfigError;
use live_tablet::{LiveReader, Loader, Readers, open};
use std::alloc::Global;
use std::sync::Wait;
use tablet_core::{Core, Event};

/// A mutation of a row comes in, where there were few.
#[tactic(auto, using(tablet_view::proofs::Orders::extends_refl))]
fn load(alloc: Global, core: &mut Core, row: u8) -> Result<(), NoMemory>
    ensures { Extends core.new.view core.old.view }
{
    let event = Event::Apply(put(alloc, row)?);
    if core.view().version() < 99 {
        core.step(alloc, &event);
    }
    Ok(())
}

/// A mutation of a row comes in, and is published.
#[tactic(auto, using(tablet_view::proofs::Orders::extends_trans))]
fn publish<R: Wait>(rt: &R, alloc: Global, loader: &mut Loader, row: u8) -> Result<(), NoMemory>
    requires { Extends loader.old.core.view loader.old.published }
{
    load(alloc, loader.core(), row)?;
    loader.publish(rt, alloc)
}

fn seen(reader: &mut LiveReader) -> Result<u64, NoMemory> {
    Ok(reader.view()?.mutations())
}

/// Whether a reader sees a mutation once it is published, and not before.
fn is_seen_once_published<R: Wait>(
    rt: &R,
    alloc: Global,
    loader: &mut Loader,
    readers: &mut Readers,
) -> Result<bool, NoMemory>
    requires { loader.old.core.view ≡ loader.old.published }
{
    let Some(mut reader) = readers.take() else {
        return Ok(false);
    };
    let before = seen(&mut reader)?;
    publish(rt, alloc, loader, b'r')?;
    let after = seen(&mut reader)?;
    Ok(before == 0 && after == 1)
}

/// Whether it is in a tablet of two readers.
fn is_seen<R: Wait>(rt: &R, alloc: Global) -> Result<bool, ConfigError> {
    let config = config(alloc)?;
    let (mut loader, mut readers) = open(rt, alloc, config, 2)?;
    let seen = is_seen_once_published(rt, alloc, &mut loader, &mut readers);
    loader.close(rt);
    Ok(seen?)
}

#[test]
fn readers_see_what_was_published(rt: HostRuntime) -> Result<(), ConfigError> {
    assert!(rt; is_seen(&rt, rt.alloc())?);
    Ok(())
}
