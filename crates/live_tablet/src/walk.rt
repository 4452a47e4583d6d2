//! Whole scans over the mutations of a view: what each scanner gives at the end of a run.
ghost use Rattle.std.specs.Prelude.{◌≡◌, ◌≤◌, length, IfOk, IfSome};
ghost use Rattle.std.specs.Arc.{arc_value};
ghost use Rattle.scan_session.specs.ScanCalls.{all_pieces};
ghost use Rattle.scan_session.specs.Takes.{mode_of};
ghost use Rattle.live_tablet.specs.Scans.{IsScanOver};

use crate::scan::Scan;
use cell_key::{Items, NoMemory};
use scan_session::{Fetched, Still};
use std::alloc::Global;
use std::sync::Arc;
use tablet_view::View;

/// A whole scan of all keys: what each fetch gave, and the number of mutations at which nothing was left.
#[derive(Drop)]
pub struct Walk {
    pub fetches: Items<Fetched>,
    pub end: u64,
}

/// How a whole scan was made: in which mode, in batches of how many entries, and from how many mutations on.
#[derive(Clone, Copy)]
pub struct WalkShape {
    pub isolated: bool,
    pub batch: u32,
    pub least: u64,
}

/// What a scan gave, where it is a whole one of this shape over the mutations of a view. It takes no memory.
pub fn walk_of(scan: Scan, whole: &View, shape: WalkShape) -> Option<Walk>
    ensures { IfSome result (λ walk. IsScanOver whole.now.config whole.now.log (mode_of shape.isolated) shape.batch shape.least (all_pieces walk.fetches) walk.end) }
{
    if !scan.is_made_so(shape.isolated, shape.batch) || !scan.is_scan_over(whole, shape.least) {
        return None;
    }
    scan.into_walk()
}

/// A whole scan of this shape over the mutations of a view, fetched from that view alone. It takes memory.
fn walk_over(alloc: Global, whole: &Arc<View>, shape: WalkShape) -> Result<Walk, NoMemory>
    requires { 1 ≤ shape.batch }
    ensures { IfOk result (λ walk. IsScanOver (arc_value whole.now).config (arc_value whole.now).log (mode_of shape.isolated) shape.batch shape.least (all_pieces walk.fetches) walk.end) }
{
    let view = Arc::try_clone(whole)?;
    let mut scan = Scan::open(alloc, view, shape.isolated, shape.batch)?;
    let mut still = Still::new();
    for _ in 0..u64::MAX {
        if scan.is_over() {
            break;
        }
        scan.fetch(alloc, &mut still);
    }
    walk_of(scan, whole, shape).ok_or(NoMemory)
}

/// What a scan gave, where it is a whole one of this shape over the mutations of a view, and else such a scan made anew. It takes
/// memory.
pub fn walk_from(
    alloc: Global,
    scan: Scan,
    whole: &Arc<View>,
    shape: WalkShape,
) -> Result<Walk, NoMemory>
    requires { 1 ≤ shape.batch }
    ensures { IfOk result (λ walk. IsScanOver (arc_value whole.now).config (arc_value whole.now).log (mode_of shape.isolated) shape.batch shape.least (all_pieces walk.fetches) walk.end) }
{
    match walk_of(scan, whole, shape) {
        Some(walk) => Ok(walk),
        None => walk_over(alloc, whole, shape),
    }
}
