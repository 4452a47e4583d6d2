//! What a stack is for.
ghost use Rattle.std.specs.Prelude.{◌≡◌};
ghost use Rattle.iter_config.specs.Rules.{is_full_combiner};

use iter_config::{Deletes, IterSpec, Kind};

/// What a stack of iterators is for.
#[derive(Clone, Copy, Debug, PartialEq, Eq)]
pub enum Usage {
    /// A scan, which sees live entries and runs all iterators.
    Scan,
    /// A minor compaction, which writes memory to a file.
    Minc,
    /// A major compaction of some of a tablet's files.
    MajcPart,
    /// A major compaction of all of them, which alone drops markers.
    MajcFull,
    /// An image of a whole history: live entries, and all iterators that run in compactions.
    Pack,
}

impl Usage {
    ghost use Rattle.iter_stack.specs.Usages.{runs_in};

    /// Whether an iterator runs.
    pub(crate) fn runs(self, spec: &IterSpec) -> bool
        ensures { result ≡ runs_in self spec.now }
    {
        match self {
            // Each iterator of a configuration runs in scans.
            Usage::Scan => true,
            Usage::Minc => spec.scopes.minc,
            Usage::MajcPart => spec.scopes.majc && !combines_with_deletes(&spec.kind),
            Usage::MajcFull => spec.scopes.majc,
            Usage::Pack => spec.scopes.minc || spec.scopes.majc,
        }
    }
}

/// Whether it is a combiner of columns that may have deletes, which joins values of all files or of none.
fn combines_with_deletes(kind: &Kind) -> bool
    ensures { result ≡ is_full_combiner kind.now }
{
    match kind {
        Kind::Combine { deletes, .. } => *deletes == Deletes::Full,
        Kind::Filter { .. } | Kind::Versions { .. } | Kind::WholeRow | Kind::Intersecting { .. } =>
            false,
    }
}
