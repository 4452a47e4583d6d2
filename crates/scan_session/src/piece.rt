//! Pieces, and what a fetch gives.
ghost use Rattle.std.specs.Prelude.{◌≡◌, IfOk};
ghost use Rattle.scan_session.specs.Walks.{pieces_of};

use cell_key::{Entries, Items, NoMemory};
use std::alloc::Global;

/// Entries of a scan that are given together, over one number of mutations.
#[derive(Drop)]
pub struct Piece {
    /// The number of mutations that the entries are the answer over.
    pub n: u64,
    pub entries: Entries,
}

/// A list of pieces.
pub type Pieces = Items<Piece>;

/// What one fetch gives.
#[derive(Drop)]
pub struct Fetched {
    pub pieces: Pieces,
    /// The number of mutations at which nothing is left, where nothing is.
    pub ended: Option<u64>,
}

/// One piece of these entries, or none where there are none.
#[tactic(auto, unfolding(crate::specs::Walks::pieces_of))]
pub(crate) fn pieces_of(alloc: Global, n: u64, entries: Entries) -> Result<Pieces, NoMemory>
    ensures { IfOk result (λ pieces. pieces ≡ pieces_of n entries) }
{
    let mut pieces = Pieces::new(alloc);
    if !entries.is_empty() {
        pieces.push(Piece { n, entries })?;
    }
    Ok(pieces)
}
