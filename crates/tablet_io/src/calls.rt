//! Which calls of a source or a sink are to fail.
ghost use Rattle.std.specs.Prelude.{◌≡◌, ◌↔◌, [], IfOk, IsTrue, Contains};

use cell_key::NoMemory;
use std::alloc::Global;
use std::marker::Model;

/// The numbers of the calls that a source or a sink over memory lets fail, counted from 1.
#[derive(Drop)]
pub struct Calls {
    numbers: Option<Vec<u64>>,
}

impl Model for Calls {
    ghost use Rattle.std.specs.Prelude.{List, ℕ};

    ghost Value = { List ℕ };

    ghost use Rattle.tablet_io.specs.CallNumbers.{numbers_in};

    ghost view = { λ c. numbers_in c.numbers };
}

impl Calls {
    /// No call fails. It takes no memory.
    pub fn none() -> Calls
        ensures { result ≡ [] }
    {
        Calls { numbers: None }
    }

    /// The calls of these numbers fail.
    pub fn of(alloc: Global, numbers: &[u64]) -> Result<Calls, NoMemory>
        ensures { IfOk result (λ c. c ≡ numbers.now) }
    {
        match Vec::from_slice(alloc, numbers) {
            Ok(numbers) => Ok(Calls {
                numbers: Some(numbers),
            }),
            Err(_) => Err(NoMemory),
        }
    }

    /// Whether the call of this number fails. It takes no memory.
    pub fn has(&self, number: u64) -> bool
        ensures { IsTrue result ↔ Contains self.now number }
    {
        match &self.numbers {
            Some(numbers) => numbers.contains(&number),
            None => false,
        }
    }
}
