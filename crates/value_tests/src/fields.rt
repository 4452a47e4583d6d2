//! Fields of bytes.
use byte_fields::{Cut, Input, append_u16, append_u32, append_u64};
use std::alloc::{AllocError, Global};

/// A number of each width.
fn three_numbers(alloc: Global) -> Result<Vec<u8>, AllocError> {
    let mut bytes = Vec::new(alloc);
    append_u16(&mut bytes, 0x0102)?;
    append_u32(&mut bytes, 0x01020304)?;
    append_u64(&mut bytes, 0x0102030405060708)?;
    Ok(bytes)
}

#[test]
fn numbers_are_written_with_their_highest_byte_first(rt: HostRuntime) -> Result<(), AllocError> {
    let bytes = three_numbers(rt.alloc())?;
    assert!(rt; bytes.as_slice() == [1, 2, 1, 2, 3, 4, 1, 2, 3, 4, 5, 6, 7, 8].as_slice());
    Ok(())
}

/// Whether a number of each width is cut at its place where a byte of it is missing.
fn are_cut(bytes: &[u8; 8]) -> bool {
    let short = Input {
        at: 5,
        rest: &bytes[..1],
    };
    let middle = Input {
        at: 5,
        rest: &bytes[..3],
    };
    let long = Input {
        at: 5,
        rest: &bytes[..7],
    };
    short.take_u16().err() == Some(Cut { at: 5 })
        && middle.take_u32().err() == Some(Cut { at: 5 })
        && long.take_u64().err() == Some(Cut { at: 5 })
}

#[test]
fn a_number_that_is_cut_is_told_by_its_place(rt: HostRuntime) {
    assert!(rt; are_cut(&[1, 2, 3, 4, 5, 6, 7, 8]));
}

/// Whether the bytes are read as these numbers, and nothing is left.
fn are_read(bytes: &[u8], two: u16, four: u32, eight: u64) -> bool {
    let input = Input { at: 0, rest: bytes };
    let Ok((first, input)) = input.take_u16() else {
        return false;
    };
    let Ok((second, input)) = input.take_u32() else {
        return false;
    };
    let Ok((third, input)) = input.take_u64() else {
        return false;
    };
    first == two && second == four && third == eight && input.at == 14 && input.rest.is_empty()
}

#[test]
fn numbers_are_read_with_their_highest_byte_first(rt: HostRuntime) {
    let bytes = [1, 2, 1, 2, 3, 4, 1, 2, 3, 4, 5, 6, 7, 8];
    assert!(rt; are_read(&bytes, 0x0102, 0x01020304, 0x0102030405060708));
}
