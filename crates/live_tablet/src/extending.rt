//! Which views may follow which.
ghost use Rattle.std.specs.Prelude.{◌↔◌, IsTrue};
ghost use Rattle.tablet_view.specs.Extending.{Extends};

use tablet_view::View;

/// Whether a view extends another: of one configuration, its log begins with the other's, its version is not lower, and is
/// higher where its log is longer. It takes no memory.
pub fn extends(view: &View, other: &View) -> bool
    ensures { IsTrue result ↔ Extends view.now other.now }
{
    view.begins_with(other)
        && other.version() <= view.version()
        && (view.mutations() <= other.mutations() || other.version() < view.version())
}
