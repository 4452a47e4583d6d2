//! The steps of the seat of the loader and of a reader: all that is done by the rule over the published view.
ghost use Rattle.std.specs.Prelude.{◌≡◌, Some, [], drop, IfOk, IfSome, MatchResult};
ghost use Rattle.std.specs.Arc.{arc_value};
ghost use Rattle.left_right.specs.Sides.{view};
ghost use Rattle.tablet_view.specs.Extending.{Extends};
ghost use Rattle.live_tablet.specs.Rules.{Knows};

use crate::published::{Handover, PlacedReader, Sight, ViewWriter};
use std::alloc::AllocError;
use std::sync::{Arc, Wait};
use tablet_view::View;

/// Looks once. Where nothing is published any more, it finds the kept view.
pub fn look(reader: PlacedReader, kept: &Arc<View>) -> (PlacedReader, Result<Arc<View>, AllocError>)
    requires { Knows (view reader.place) (arc_value kept.now) }
    ensures seen { IfOk result.1 (λ a. Extends (arc_value a) (arc_value kept.now) × Knows (view result.0.place) (arc_value a)) }
    ensures knows { Knows (view result.0.place) (arc_value kept.now) }
{
    match reader.enter_as::<Sight>() {
        Ok(reading) => {
            let seen = Arc::try_clone(&reading.get().view);
            (reading.leave(), seen)
        }
        Err(reader) => (reader, Arc::try_clone(kept)),
    }
}

/// Publishes an equal view, since nothing is pending. So the seat knows it. It may wait for readers.
pub fn show_again<R: Wait>(rt: &R, writer: ViewWriter) -> (ViewWriter, Result<(), AllocError>)
    requires { drop writer.behind writer.log.items ≡ [] }
    ensures shown { arc_value result.0.desk.shown.value.view ≡ arc_value writer.desk.shown.value.view }
    ensures known { IfOk result.1 (λ _. view result.0.desk.place ≡ Some (arc_value result.0.desk.shown.value.view)) }
{
    writer.publish_as::<Sight, R>(rt)
}

/// Publishes the next view in one step. It may wait for readers.
pub fn push<R: Wait>(
    rt: &R,
    mut writer: ViewWriter,
    next: Arc<View>,
) -> (ViewWriter, Result<(), AllocError>)
    requires extends { Extends (arc_value next) (arc_value writer.desk.shown.value.view) }
    requires known { view writer.desk.place ≡ Some (arc_value writer.desk.shown.value.view) }
    ensures shown { MatchResult result.1 (λ _. arc_value result.0.desk.shown.value.view ≡ arc_value next) (λ _. result.0.desk.shown.value ≡ writer.desk.shown.value) }
    ensures known { view result.0.desk.place ≡ Some (arc_value result.0.desk.shown.value.view) }
{
    match writer.append(next) {
        Ok(()) => writer.publish_as::<Sight, R>(rt),
        Err(_) => (writer, Err(AllocError)),
    }
}

/// A reader that knows what the loader knows, and none where no place is free.
pub fn told(writer: &mut ViewWriter) -> Option<PlacedReader>
    ensures told { IfSome result (λ r. view r.place ≡ view writer.old.desk.place) }
    ensures kept { (writer.new.desk.shown ≡ writer.old.desk.shown) × (view writer.new.desk.place ≡ view writer.old.desk.place) }
{
    let mut reader = writer.factory().reader().ok()?;
    reader.learn::<Handover>(writer.tell::<Handover>());
    Some(reader)
}

/// Looks once where there is a seat, and finds the kept view where there is none.
#[tactic(auto, using(tablet_view::proofs::Orders::extends_refl))]
pub fn see(
    seat: Option<PlacedReader>,
    kept: &Arc<View>,
) -> (Option<PlacedReader>, Result<Arc<View>, AllocError>)
    requires { IfSome seat (λ s. Knows (view s.place) (arc_value kept.now)) }
    ensures seen { IfOk result.1 (λ a. Extends (arc_value a) (arc_value kept.now) × IfSome result.0 (λ s. Knows (view s.place) (arc_value a))) }
    ensures knows { IfSome result.0 (λ s. Knows (view s.place) (arc_value kept.now)) }
{
    match seat {
        None => (None, Arc::try_clone(kept)),
        Some(reader) => {
            let (reader, seen) = look(reader, kept);
            (Some(reader), seen)
        }
    }
}
