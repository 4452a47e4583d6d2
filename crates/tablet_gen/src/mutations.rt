//! Generated mutations.
ghost use Rattle.std.specs.Prelude.{◌≡◌, ◌+◌, ◌%◌, ◌*◌, map, IfOk, OnOk};
ghost use Rattle.std.specs.Fmt.{decimal};
ghost use Rattle.cell_key.specs.Mutations.{change_of, row_change_of};
ghost use Rattle.tablet_gen.specs.Draws.{draw, state_behind};
ghost use Rattle.tablet_gen.specs.Mutations.{change_from, digit_of, family_of, mutation_at, mutations_of, qualifier_of, row_of, value_of};

use crate::draws::Draws;
use cell_key::{ByteText, Mutation, Mutations, NoMemory, Update, Updates};
use std::alloc::Global;
use tablet_steps::append_numbered;

/// The last decimal digit of a number.
fn digit_of(n: u32) -> u8
    ensures { result ≡ digit_of n }
{
    b'0' + (n % 10) as u8
}

fn row_of(alloc: Global, draw: u32) -> Result<ByteText, NoMemory>
    ensures { IfOk result (λ row. row ≡ row_of draw) }
{
    let n = draw % 1000;
    ByteText::of(
        alloc,
        &[b'r', digit_of(n / 100), digit_of(n / 10), digit_of(n)],
    )
}

fn family_of(alloc: Global, draw: u32) -> Result<ByteText, NoMemory>
    ensures { IfOk result (λ family. family ≡ family_of draw) }
{
    let family = if draw % 4 < 2 { b"n" } else { b"p" };
    ByteText::of(alloc, family)
}

fn qualifier_of(alloc: Global, draw: u32) -> Result<ByteText, NoMemory>
    ensures { IfOk result (λ qualifier. qualifier ≡ qualifier_of draw) }
{
    let mut qualifier = ByteText::new(alloc);
    append_numbered(alloc, &mut qualifier, b"q", u64::from(draw % 8))?;
    Ok(qualifier)
}

/// What the second draw has put, or that it deletes.
fn value_of(alloc: Global, kind: u32, draw: u32) -> Result<Option<ByteText>, NoMemory>
    ensures { IfOk result (λ value. value ≡ value_of kind draw) }
{
    if kind % 4 == 3 {
        return Ok(None);
    }
    let mut value = ByteText::new(alloc);
    append_numbered(alloc, &mut value, b"", u64::from(draw % 100))?;
    Ok(Some(value))
}

/// The change that three draws make.
fn update_of(alloc: Global, b: u32, c: u32, d: u32) -> Result<Update, NoMemory>
    ensures { IfOk result (λ update. change_of update ≡ change_from b c d) }
{
    Ok(Update {
        family: family_of(alloc, b)?,
        qualifier: qualifier_of(alloc, c)?,
        visibility: ByteText::new(alloc),
        time: None,
        value: value_of(alloc, b, d)?,
    })
}

/// The mutation that the next four draws make.
fn next_mutation(alloc: Global, draws: &mut Draws) -> Result<Mutation, NoMemory>
    ensures mutation { IfOk result (λ m. row_change_of m ≡ mutation_at 0 draws.old.state) }
    ensures state { OnOk result (draws.new.state ≡ state_behind 4 draws.old.state) }
{
    let (a, b, c, d) = (draws.draw(), draws.draw(), draws.draw(), draws.draw());
    let mut updates = Updates::new(alloc);
    updates.push(update_of(alloc, b, c, d)?)?;
    Ok(Mutation {
        row: row_of(alloc, a)?,
        updates,
    })
}

/// The first mutations from a start. It takes memory.
pub fn mutations_of(alloc: Global, start: u32, size: u32) -> Result<Mutations, NoMemory>
    ensures { IfOk result (λ list. map row_change_of list ≡ mutations_of size start) }
{
    let mut draws = Draws { state: start };
    let mut list = Mutations::with_capacity(alloc, size as usize)?;
    for _ in 0..size {
        list.push(next_mutation(alloc, &mut draws)?)?;
    }
    Ok(list)
}
