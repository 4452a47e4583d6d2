//! Arrays of numbers.
ghost use Rattle.std.specs.Prelude.{◌≡◌, IsTrue, true};
ghost use Rattle.number_values.specs.Arrays.{spells_array};

use number_values::{Encoding, NumberArray, Op};
use std::alloc::{AllocError, Global};

fn sum_of(
    alloc: Global,
    encoding: Encoding,
    first: &[u8],
    second: &[u8],
) -> Result<NumberArray, AllocError>
    requires first { spells_array encoding first.now ≡ true }
    requires second { spells_array encoding second.now ≡ true }
{
    let mut sum = NumberArray::new(alloc);
    sum.read(encoding, first)?;
    sum.add(encoding, second)?;
    Ok(sum)
}

fn is_written(
    alloc: Global,
    encoding: Encoding,
    array: &NumberArray,
    text: &[u8],
) -> Result<bool, AllocError> {
    let mut written = Vec::new(alloc);
    array.write(encoding, &mut written)?;
    Ok(written.as_slice() == text)
}

#[tactic(auto, unfolding(number_values::specs::Values::reduction_of))]
fn are_read(encoding: Encoding, first: &[u8], second: &[u8]) -> bool
    ensures first { IsTrue result → spells_array encoding first.now ≡ true }
    ensures second { IsTrue result → spells_array encoding second.now ≡ true }
{
    Op::ArraySum.reads(encoding, first) && Op::ArraySum.reads(encoding, second)
}

/// Whether the sum of two arrays has this text, and no text where one of them is not read.
fn is_sum(
    alloc: Global,
    encoding: Encoding,
    first: &[u8],
    second: &[u8],
    text: &[u8],
) -> Result<bool, AllocError> {
    if !are_read(encoding, first, second) {
        return Ok(text.is_empty());
    }
    let sum = sum_of(alloc, encoding, first, second)?;
    is_written(alloc, encoding, &sum, text)
}

#[test]
fn decimal_arrays_are_added(rt: HostRuntime) -> Result<(), AllocError> {
    let decimals: [(&[u8], &[u8], &[u8]); 11] = [
        (b"4,6,5", b"1,20,300", b"5,26,305"),
        (b"4,6,5", b"10", b"14,6,5"),
        (b"10", b"4,6,5", b"14,6,5"),
        (b"007,1", b"+1,-0", b"8,1"),
        (b"9223372036854775807,1", b"1,1", b"9223372036854775807,2"),
        (b"1", b"1,-1", b""),
        (b"1", b"1,9223372036854775808", b""),
        (b"1", b"1,", b""),
        (b"1", b",1", b""),
        (b"1", b"1,,1", b""),
        (b"1", b"", b""),
    ];
    for (i, (first, second, sum)) in decimals.iter().enumerate() {
        assert!(rt;
            is_sum(rt.alloc(), Encoding::String, first, second, sum)?,
            "{i}"
        );
    }
    Ok(())
}

#[test]
fn fixed_arrays_are_added(rt: HostRuntime) -> Result<(), AllocError> {
    let fixed: [(&[u8], &[u8]); 5] = [
        (
            b"\0\0\0\0\0\0\0\x05\0\0\0\0\0\0\0\x07",
            b"\0\0\0\0\0\0\0\x06\0\0\0\0\0\0\0\x07",
        ),
        (
            b"\x7f\xff\xff\xff\xff\xff\xff\xff",
            b"\x7f\xff\xff\xff\xff\xff\xff\xff",
        ),
        (b"\xff\xff\xff\xff\xff\xff\xff\xff", b""),
        (b"\0\0\0\0\0\0\0\x05\0", b""),
        (b"", b""),
    ];
    let one = b"\0\0\0\0\0\0\0\x01";
    for (i, (first, sum)) in fixed.iter().enumerate() {
        assert!(rt;
            is_sum(rt.alloc(), Encoding::Fixed, first, one, sum)?,
            "{i}"
        );
    }
    Ok(())
}

#[test]
fn arrays_have_at_most_256_numbers(rt: HostRuntime) {
    assert!(rt; Op::ArraySum.reads(Encoding::Fixed, &[0; 2048]));
    assert!(rt; !Op::ArraySum.reads(Encoding::Fixed, &[0; 2056]));
}
