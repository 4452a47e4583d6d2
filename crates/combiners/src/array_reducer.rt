//! Arrays that are added.
ghost use Rattle.std.specs.Prelude.{◌≡◌, true};
ghost use Rattle.number_values.specs.Arrays.{array_text};

use crate::reducer::Reducer;
use cell_key::NoMemory;
use number_values::{Encoding, NumberArray, Op};
use std::alloc::Global;

/// How many bytes are reserved for a text.
const TEXT_ROOM: usize = 64;

/// Adds arrays of whole numbers element by element (Accumulo's `SummingArrayCombiner`). A sum stops at 2^63 - 1. It takes
/// memory for a longer array, so it is not steady.
#[derive(Drop)]
pub struct ArrayReducer {
    encoding: Encoding,
    /// The sums since the last start, and their text, if there was a start.
    sums: NumberArray,
    text: Vec<u8>,
    is_started: bool,
    ghost written: { is_started ≡ true → text.items ≡ array_text encoding sums },
}

impl ArrayReducer {
    ghost use Rattle.std.specs.Prelude.{false, None, is_ok, IfOk};
    ghost use Rattle.number_values.specs.Arrays.{array_reduction};
    ghost use Rattle.combiners.specs.ArrayParts.{array_reducer_reduction, array_reducer_joined, array_reducer_steady};

    /// A reducer that has not started, of arrays that are spelled so. It takes memory.
    pub fn new(alloc: Global, encoding: Encoding) -> Result<ArrayReducer, NoMemory>
        ensures reduction { IfOk result (λ reducer. array_reducer_reduction reducer ≡ array_reduction encoding) }
        ensures joined { IfOk result (λ reducer. array_reducer_joined reducer ≡ None) }
        ensures steady { IfOk result (λ reducer. array_reducer_steady reducer ≡ false) }
    {
        let text = Vec::with_capacity(alloc, TEXT_ROOM)?;
        Ok(ArrayReducer {
            encoding,
            sums: NumberArray::new(alloc),
            text,
            is_started: false,
        })
    }

    /// Writes the sums' text.
    fn write(&mut self) -> Result<(), NoMemory>
        requires { self.old.is_started ≡ false }
        ensures encoding { self.new.encoding ≡ self.old.encoding }
        ensures sums { self.new.sums ≡ self.old.sums }
        ensures started { self.new.is_started ≡ is_ok result }
    {
        self.sums.write(self.encoding, &mut self.text)?;
        self.is_started = true;
        Ok(())
    }
}

impl Reducer for ArrayReducer {
    ghost use Rattle.combiners.specs.ArrayParts.{array_reducer_reduction, array_reducer_joined, array_reducer_steady, array_reducer_lawful};

    ghost reduction = { array_reducer_reduction };

    ghost joined = { array_reducer_joined };

    ghost steady = { array_reducer_steady };

    ghost lawful = { array_reducer_lawful };

    #[tactic(auto, unfolding(number_values::specs::Values::reduction_of))]
    fn reads(&self, bytes: &[u8]) -> bool {
        Op::ArraySum.reads(self.encoding, bytes)
    }

    fn start(&mut self, first: &[u8]) -> Result<(), NoMemory> {
        self.is_started = false;
        self.sums.read(self.encoding, first)?;
        self.write()
    }

    fn fold(&mut self, next: &[u8]) -> Result<(), NoMemory> {
        self.is_started = false;
        self.sums.add(self.encoding, next)?;
        self.write()
    }

    fn result(&self) -> &[u8] {
        self.text.as_slice()
    }

    fn fresh(&self, alloc: Global) -> Result<ArrayReducer, NoMemory> {
        ArrayReducer::new(alloc, self.encoding)
    }
}
