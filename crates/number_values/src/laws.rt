//! That values are joined in any order, and are short.
ghost use Rattle.std.specs.Prelude.{◌≡◌, ◌≤◌, ℤ, List, true, length};
ghost use Rattle.tablet_model.specs.Reductions.{IsLawful};
ghost use Rattle.number_values.specs.Values.{reduction_of};

use crate::op::{Encoding, Op};

/// A law: values are joined in any order, and each is read as it was written.
pub fn values_are_joined_in_any_order(op: Op, encoding: Encoding)
    ensures { IsLawful (reduction_of op encoding) }
{}

/// A law: the text of a value is short enough for the value of an entry.
pub fn values_are_short(op: Op, encoding: Encoding)
    ensures { (v : List ℤ) → (reduction_of op encoding).is_value v ≡ true
        → length ((reduction_of op encoding).text v) ≤ 65536 }
{}
