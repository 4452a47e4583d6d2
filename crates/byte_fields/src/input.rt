//! Fields read from bytes, with the place of each.
ghost use Rattle.std.specs.Prelude.{◌+◌, ◌<◌, ◌^◌, length};

use crate::cut::Cut;
use byteorder::{BigEndian, ByteOrder};

/// What is not read yet of some bytes. No call on it takes memory.
#[derive(Clone, Copy)]
pub struct Input<'a> {
    /// The place of its first byte.
    pub at: usize,
    pub rest: &'a [u8],
    pub ghost fits: { at + length rest.now < 2 ^ 64 },
}

impl<'a> Input<'a> {
    ghost use Rattle.std.specs.Prelude.{◌≡◌, IfOk};
    ghost use Rattle.byte_fields.specs.Answers.{Gives, unread_of};
    ghost use Rattle.byte_fields.specs.Fields.{bytes_at, number_at};

    /// A field of `n` bytes.
    #[tactic(auto, unfolding(crate::specs::Fields::bytes_at))]
    pub fn take(self, n: usize) -> Result<(&'a [u8], Input<'a>), Cut>
        ensures reading { Gives (λ x. (x.0.now, unread_of x.1)) result (bytes_at n (unread_of self.entry)) }
        ensures length { IfOk result (λ x. length x.0.now ≡ n) }
    {
        if self.rest.len() < n {
            return Err(Cut { at: self.at as u64 });
        }
        let (field, rest) = self.rest.split_at(n);
        Ok((
            field,
            Input {
                at: self.at + n,
                rest,
            },
        ))
    }

    /// A field that is a number of two bytes.
    #[tactic(auto, unfolding(crate::specs::Fields::number_at))]
    pub fn take_u16(self) -> Result<(u16, Input<'a>), Cut>
        ensures { Gives (λ x. (x.0, unread_of x.1)) result (number_at 2 (unread_of self.entry)) }
    {
        let (field, rest) = self.take(2)?;
        Ok((BigEndian::read_u16(field), rest))
    }

    /// A field that is a number of four bytes.
    #[tactic(auto, unfolding(crate::specs::Fields::number_at))]
    pub fn take_u32(self) -> Result<(u32, Input<'a>), Cut>
        ensures { Gives (λ x. (x.0, unread_of x.1)) result (number_at 4 (unread_of self.entry)) }
    {
        let (field, rest) = self.take(4)?;
        Ok((BigEndian::read_u32(field), rest))
    }

    /// A field that is a number of eight bytes.
    #[tactic(auto, unfolding(crate::specs::Fields::number_at))]
    pub fn take_u64(self) -> Result<(u64, Input<'a>), Cut>
        ensures { Gives (λ x. (x.0, unread_of x.1)) result (number_at 8 (unread_of self.entry)) }
    {
        let (field, rest) = self.take(8)?;
        Ok((BigEndian::read_u64(field), rest))
    }
}
