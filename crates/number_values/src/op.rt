//! Operations and encodings of numbers.
ghost use Rattle.std.specs.Prelude.{◌≡◌, true};
ghost use Rattle.number_values.specs.Numbers.{is_number, is_some_number, number_in, joined_number};
ghost use Rattle.number_values.specs.Values.{reduction_of};

use crate::arrays::spells_array;

/// What a combiner makes of the numbers of a column, as Accumulo's combiners of these names.
#[derive(Clone, Copy, PartialEq, Eq, Debug)]
pub enum Op {
    /// Their sum, which stops at 2^63 - 1. The numbers are from 0 to 2^63 - 1.
    Sum,
    /// The least.
    Min,
    /// The greatest.
    Max,
    /// Lists of numbers, added element by element.
    ArraySum,
}

/// How a number is spelled in a value.
#[derive(Clone, Copy, PartialEq, Eq, Debug)]
pub enum Encoding {
    /// In 8 bytes, big-endian, as two's complement.
    Fixed,
    /// In 1 to 32 decimal digits behind an optional sign.
    String,
}

impl Op {
    /// Whether it is for this number. It takes no memory.
    pub fn takes(self, number: i64) -> bool
        ensures { result ≡ is_number self number }
    {
        match self {
            Op::Min | Op::Max => true,
            Op::Sum | Op::ArraySum => number >= 0,
        }
    }

    /// Whether the bytes spell a value that it is for: a number, or an array of numbers for their sum. It takes no
    /// memory.
    #[tactic(auto, unfolding(crate::specs::Values::reduction_of))]
    pub fn reads(self, encoding: Encoding, bytes: &[u8]) -> bool
        ensures { result ≡ (reduction_of self encoding).reads bytes.now }
    {
        match self {
            Op::ArraySum => spells_array(encoding, bytes),
            Op::Sum | Op::Min | Op::Max => self.reads_number(encoding, bytes),
        }
    }

    /// Whether the bytes spell a number that it is for, or for an array sum one of the array's. It takes no memory.
    pub fn reads_number(self, encoding: Encoding, bytes: &[u8]) -> bool
        ensures { result ≡ is_some_number self (number_in encoding bytes.now) }
    {
        match encoding.number(bytes) {
            Some(number) => self.takes(number),
            None => false,
        }
    }

    /// What it makes of two numbers. It takes no memory.
    pub fn join(self, a: i64, b: i64) -> i64
        requires first { is_number self a ≡ true }
        requires second { is_number self b ≡ true }
        ensures joined { result ≡ joined_number self a b }
        ensures number { is_number self result ≡ true }
    {
        match self {
            Op::Sum | Op::ArraySum => a.saturating_add(b),
            Op::Min => a.min(b),
            Op::Max => a.max(b),
        }
    }
}
