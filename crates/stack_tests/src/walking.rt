ghost use Rattle.std.specs.Prelude.{◌≡◌, true, [], IsOk, OnOk};

use cell_key::NoMemory;
use iter_contract::SortedSource;

/// Steps a source to its end. One that is steady takes no memory, so that it is walked whole.
pub(crate) fn walk_to_end<S: SortedSource>(source: &mut S) -> Result<(), NoMemory>
    requires { S.valid source.old }
    ensures cells { S.cells source.new ≡ S.cells source.old }
    ensures steady { S.steady source.new ≡ S.steady source.old }
    ensures valid { S.valid source.new }
    ensures end { S.rest source.new ≡ [] }
    ensures works { S.steady source.old ≡ true → IsOk result }
{
    while source.top().is_some() {
        source.next()?;
    }
    Ok(())
}
