//! The source and its deep copies, one for each further term.
ghost use Rattle.std.specs.Prelude.{◌≡◌, ◌+◌, false, [], map, IfOk, length};
ghost use Rattle.std.specs.List.{AllByRecursion};
ghost use Rattle.intersecting.specs.Firsts.{at_first};

use cell_key::NoMemory;
use iter_contract::SortedSource;
use std::alloc::Global;

/// A source, and behind it so many deep copies of it, each as steady as the source. It takes memory.
pub fn copied<S: SortedSource>(alloc: Global, source: S, count: usize) -> Result<Vec<S>, NoMemory>
    requires valid { S.valid source }
    ensures valid { IfOk result (λ sources. AllByRecursion S.valid sources.items) }
    ensures cells { IfOk result (λ sources. AllByRecursion (λ cells. cells ≡ S.cells source) (map S.cells sources.items)) }
    ensures count { IfOk result (λ sources. length sources.items ≡ 1 + count) }
    ensures first { IfOk result (λ sources. at_first S.cells [] sources.items ≡ S.cells source) }
    ensures rest { IfOk result (λ sources. at_first S.rest [] sources.items ≡ S.rest source) }
    ensures steady { IfOk result (λ sources. at_first S.steady false sources.items ≡ S.steady source) }
    ensures alike { IfOk result (λ sources. AllByRecursion (λ steady. steady ≡ S.steady source) (map S.steady sources.items)) }
{
    let mut sources = Vec::new(alloc);
    sources.push(source)?;
    for _ in 0..count {
        let copy = sources[0].deep_copy(alloc)?;
        sources.push(copy)?;
    }
    Ok(sources)
}
