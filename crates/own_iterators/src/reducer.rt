//! A reducer of one's own.
ghost use Rattle.std.specs.Prelude.{◌≡◌, ◌||◌, true, None};
ghost use Rattle.own_iterators.specs.Flags.{flag_reduction, flag_joined, is_set};

use cell_key::NoMemory;
use combiners::Reducer;
use std::alloc::Global;

/// Whether any value of a column is `1`; the others are `0`.
#[derive(Drop)]
pub struct AnyFlag {
    /// Whether any value since the last start was `1`, if there was a start.
    join: Option<bool>,
}

impl AnyFlag {
    /// A reducer that has not started. It takes no memory.
    pub fn new() -> AnyFlag
        ensures { flag_joined result ≡ None }
    {
        AnyFlag { join: None }
    }
}

// A reducer says by `reduction` which bytes it reads, what they mean, how two values are joined and how one is written.
// Its one law, `lawful`, is that values may be joined in any order and grouping: compactions join some of them early.
impl Reducer for AnyFlag {
    ghost use Rattle.own_iterators.specs.Flags.{flag_lawful};

    ghost reduction = { λ _. flag_reduction };

    ghost joined = { flag_joined };

    // It takes no memory, so that a stack over it can be walked whole.
    ghost steady = { λ _. true };

    ghost lawful = { λ _. flag_lawful };

    fn reads(&self, bytes: &[u8]) -> bool {
        bytes == b"0".as_slice() || is_one(bytes)
    }

    fn start(&mut self, first: &[u8]) -> Result<(), NoMemory> {
        self.join = Some(is_one(first));
        Ok(())
    }

    fn fold(&mut self, next: &[u8]) -> Result<(), NoMemory> {
        self.join = Some(self.join.unwrap() || is_one(next));
        Ok(())
    }

    fn result(&self) -> &[u8] {
        if self.join.unwrap() { b"1" } else { b"0" }
    }

    fn fresh(&self, _alloc: Global) -> Result<AnyFlag, NoMemory> {
        Ok(AnyFlag::new())
    }
}

/// Whether a value is `1`.
fn is_one(bytes: &[u8]) -> bool
    ensures { result ≡ is_set bytes.now }
{
    bytes == b"1".as_slice()
}
