//! Numbers that are written as fields.
ghost use Rattle.std.specs.Prelude.{◌≡◌, ◌++◌, is_ok, if◌then◌else◌};
ghost use Rattle.byteorder.specs.Endian.{big_bytes};

use byteorder::{BigEndian, ByteOrder};
use std::alloc::AllocError;

/// Appends a number of two bytes; without memory nothing is changed.
pub fn append_u16(bytes: &mut Vec<u8>, number: u16) -> Result<(), AllocError>
    ensures { bytes.new.items ≡ (if is_ok result then bytes.old.items ++ big_bytes 2 number else bytes.old.items) }
{
    let mut field = [0; 2];
    BigEndian::write_u16(&mut field, number);
    bytes.extend_from_slice(&field)
}

/// Appends a number of four bytes; without memory nothing is changed.
pub fn append_u32(bytes: &mut Vec<u8>, number: u32) -> Result<(), AllocError>
    ensures { bytes.new.items ≡ (if is_ok result then bytes.old.items ++ big_bytes 4 number else bytes.old.items) }
{
    let mut field = [0; 4];
    BigEndian::write_u32(&mut field, number);
    bytes.extend_from_slice(&field)
}

/// Appends a number of eight bytes; without memory nothing is changed.
pub fn append_u64(bytes: &mut Vec<u8>, number: u64) -> Result<(), AllocError>
    ensures { bytes.new.items ≡ (if is_ok result then bytes.old.items ++ big_bytes 8 number else bytes.old.items) }
{
    bytes.extend_from_slice(&u64_bytes(number))
}

/// The field of a number of eight bytes. It takes no memory.
pub fn u64_bytes(number: u64) -> [u8; 8]
    ensures { result ≡ big_bytes 8 number }
{
    let mut field = [0; 8];
    BigEndian::write_u64(&mut field, number);
    field
}
