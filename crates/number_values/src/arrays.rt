//! Arrays of numbers, and how they are added.
ghost use Rattle.std.specs.Prelude.{◌≡◌, ◌≤◌, ◌++◌, ◌∷◌, [], true, length, take, drop, OnOk};
ghost use Rattle.number_values.specs.Numbers.{is_number, text_of};
ghost use Rattle.number_values.specs.Arrays.{spells_array, separator, array_in, array_sum, array_text};

use crate::op::{Encoding, Op};
use crate::parts::split_first;
use crate::writing::NumberText;
use std::alloc::{AllocError, Global};
use std::marker::Model;

/// The most numbers of an array.
const MAX_LENGTH: usize = 256;

/// Whether the bytes spell an array.
pub(crate) fn spells_array(encoding: Encoding, bytes: &[u8]) -> bool
    ensures { result ≡ spells_array encoding bytes.now }
{
    let mut rest = Some(bytes);
    let mut count = 0;
    while let Some(left) = rest {
        let (part, others) = split_first(encoding, left);
        if count == MAX_LENGTH || !Op::ArraySum.reads_number(encoding, part) {
            return false;
        }
        count += 1;
        rest = others;
    }
    true
}

/// Numbers from 0 up, that are added element by element.
#[derive(Drop)]
pub struct NumberArray {
    numbers: Vec<i64>,
}

impl Model for NumberArray {
    ghost use Rattle.std.specs.Prelude.{◌≡◌, true, ℤ, List};
    ghost use Rattle.number_values.specs.Arrays.{are_elements};

    ghost Value = { List ℤ };

    ghost view = { λ a. a.numbers.items };

    ghost invariant = { λ a. are_elements a.numbers.items ≡ true };
}

impl NumberArray {
    /// No numbers yet. It takes no memory.
    pub fn new(alloc: Global) -> NumberArray
        ensures { result ≡ [] }
    {
        NumberArray {
            numbers: Vec::new(alloc),
        }
    }

    /// Becomes the array that the bytes spell. It takes memory for a longer array; after an error it is not said which
    /// numbers it has.
    #[tactic(auto, unfolding(crate::specs::Arrays::array_sum))]
    pub fn read(&mut self, encoding: Encoding, bytes: &[u8]) -> Result<(), AllocError>
        requires { spells_array encoding bytes.now ≡ true }
        ensures { OnOk result (self.new ≡ array_in encoding bytes.now) }
    {
        self.numbers.clear();
        self.add(encoding, bytes)
    }

    /// Adds the array that the bytes spell, element by element, where each sum stops at 2^63 - 1 and the shorter array goes
    /// on with zeros. It takes memory for a longer array; after an error it is not said which numbers it has.
    pub fn add(&mut self, encoding: Encoding, bytes: &[u8]) -> Result<(), AllocError>
        requires { spells_array encoding bytes.now ≡ true }
        ensures { OnOk result (self.new ≡ array_sum self.old (array_in encoding bytes.now)) }
    {
        let mut rest = Some(bytes);
        let mut at = 0;
        while let Some(left) = rest {
            let (part, others) = split_first(encoding, left);
            let number = encoding.number(part).unwrap();
            self.add_at(at, number)?;
            at += 1;
            rest = others;
        }
        Ok(())
    }

    /// Adds a number to an element, which is 0 at the end.
    fn add_at(&mut self, at: usize, number: i64) -> Result<(), AllocError>
        requires at { at ≤ length self.old }
        requires number { is_number Op.ArraySum number ≡ true }
        ensures { OnOk result (self.new ≡ take at self.old ++ array_sum (drop at self.old) (number ∷ [])) }
    {
        if at == self.numbers.len() {
            self.numbers.push(number)?;
        } else {
            self.numbers[at] = Op::ArraySum.join(self.numbers[at], number);
        }
        Ok(())
    }

    /// Makes a text that of the array. It takes memory for a longer text; after an error it is not said what the text is.
    pub fn write(&self, encoding: Encoding, text: &mut Vec<u8>) -> Result<(), AllocError>
        ensures { OnOk result (text.new.items ≡ array_text encoding self.now) }
    {
        text.clear();
        for (index, number) in self.numbers.as_slice().iter().enumerate() {
            if index > 0 {
                append_separator(text, encoding)?;
            }
            append_number(text, encoding, *number)?;
        }
        Ok(())
    }
}

fn append_separator(text: &mut Vec<u8>, encoding: Encoding) -> Result<(), AllocError>
    ensures { OnOk result (text.new.items ≡ text.old.items ++ separator encoding) }
{
    match encoding {
        Encoding::Fixed => {}
        Encoding::String => text.push(b',')?,
    }
    Ok(())
}

fn append_number(text: &mut Vec<u8>, encoding: Encoding, number: i64) -> Result<(), AllocError>
    ensures { OnOk result (text.new.items ≡ text.old.items ++ text_of encoding number) }
{
    let mut number_text = NumberText::new();
    number_text.write(encoding, number);
    text.extend_from_slice(number_text.bytes())
}
