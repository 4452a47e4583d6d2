//! Numbers that are added, or of which the least or the greatest stays.
ghost use Rattle.std.specs.Prelude.{◌≡◌, true};
ghost use Rattle.combiners.specs.Joins.{is_join, join_text};

use crate::reducer::Reducer;
use cell_key::NoMemory;
use number_values::{Encoding, NumberText, Op};
use std::alloc::Global;

/// Joins whole numbers in place (Accumulo's `SummingCombiner`, `MinCombiner` and `MaxCombiner`). A sum stops at
/// 2^63 - 1. It is steady.
#[derive(Drop)]
pub struct LongReducer {
    op: Op,
    encoding: Encoding,
    /// The join since the last start, if one was, and its text.
    join: Option<i64>,
    text: NumberText,
    ghost number: { is_join op join ≡ true },
    ghost written: { text ≡ join_text encoding join },
}

impl LongReducer {
    ghost use Rattle.std.specs.Prelude.{◌≢◌, Some, None};
    ghost use Rattle.number_values.specs.Numbers.{is_number, number_reduction};
    ghost use Rattle.combiners.specs.LongParts.{long_reduction, long_joined, long_steady};

    /// A reducer that has not started, of numbers that are spelled so. The operation is a sum, the least or the
    /// greatest. It takes no memory.
    pub fn new(op: Op, encoding: Encoding) -> LongReducer
        requires { op ≢ Op.ArraySum }
        ensures reduction { long_reduction result ≡ number_reduction op encoding }
        ensures joined { long_joined result ≡ None }
        ensures steady { long_steady result ≡ true }
    {
        LongReducer::unstarted(op, encoding)
    }

    fn unstarted(op: Op, encoding: Encoding) -> LongReducer
        ensures op { result.op ≡ op }
        ensures encoding { result.encoding ≡ encoding }
        ensures join { result.join ≡ None }
    {
        LongReducer {
            op,
            encoding,
            join: None,
            text: NumberText::new(),
        }
    }

    /// Makes a number the join.
    fn keep(&mut self, number: i64)
        requires { is_number self.old.op number ≡ true }
        ensures op { self.new.op ≡ self.old.op }
        ensures encoding { self.new.encoding ≡ self.old.encoding }
        ensures join { self.new.join ≡ Some number }
    {
        self.text.write(self.encoding, number);
        self.join = Some(number);
    }
}

impl Reducer for LongReducer {
    ghost use Rattle.combiners.specs.LongParts.{long_reduction, long_joined, long_steady, long_lawful};

    ghost reduction = { long_reduction };

    ghost joined = { long_joined };

    ghost steady = { long_steady };

    ghost lawful = { long_lawful };

    fn reads(&self, bytes: &[u8]) -> bool {
        self.op.reads_number(self.encoding, bytes)
    }

    fn start(&mut self, first: &[u8]) -> Result<(), NoMemory> {
        let first = self.encoding.number(first).unwrap();
        self.keep(first);
        Ok(())
    }

    fn fold(&mut self, next: &[u8]) -> Result<(), NoMemory> {
        let join = self.join.unwrap();
        let next = self.encoding.number(next).unwrap();
        self.keep(self.op.join(join, next));
        Ok(())
    }

    fn result(&self) -> &[u8] {
        self.text.bytes()
    }

    fn fresh(&self, _alloc: Global) -> Result<LongReducer, NoMemory> {
        Ok(LongReducer::unstarted(self.op, self.encoding))
    }
}
