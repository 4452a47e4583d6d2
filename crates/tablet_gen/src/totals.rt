//! How many entries there are, and the sum of the numbers among them.
ghost use Rattle.std.specs.Prelude.{◌≡◌, ◌+◌, ◌*◌, ◌≤◌, ◌<◌, ◌^◌, IfOk};
ghost use Rattle.cell_key.specs.Views.{cell_of};
ghost use Rattle.number_values.specs.Numbers.{decimal_in};
ghost use Rattle.tablet_gen.specs.Totals.{amount_in, amount_of};

use cell_key::{EntryRef, NoMemory};
use iter_contract::SortedSource;
use number_values::Encoding;

/// How many entries there are, and the sum of the numbers in family `n`.
#[derive(Clone, Copy, Debug)]
pub struct Totals {
    pub entries: u64,
    pub total: u128,
    pub ghost bounded: { total ≤ entries * 2 ^ 63 },
}

/// The number from 0 up that a value spells, 0 where it spells none.
fn amount_of(value: &[u8]) -> u64
    ensures amount { result ≡ amount_of (decimal_in value.now) }
    ensures bounded { result < 2 ^ 63 }
{
    match Encoding::String.number(value) {
        Some(number) if number > 0 => number as u64,
        _ => 0,
    }
}

/// What an entry adds to the total.
fn amount_in(entry: EntryRef<'_>) -> u64
    ensures amount { result ≡ amount_in (cell_of entry.entry) }
    ensures bounded { result < 2 ^ 63 }
{
    if entry.key.family == b"n".as_slice() {
        amount_of(entry.value)
    } else {
        0
    }
}

impl Totals {
    ghost use Rattle.tablet_gen.specs.Scanned.{AreTotalsOf};

    /// No entries.
    fn none() -> Totals
        ensures entries { result.entries ≡ 0 }
        ensures total { result.total ≡ 0 }
    {
        Totals {
            entries: 0,
            total: 0,
        }
    }

    /// The totals of an entry more. `Err` comes only where there are 2^64 entries, of which no memory has as many.
    fn with(self, entry: EntryRef<'_>) -> Result<Totals, NoMemory>
        ensures entries { IfOk result (λ totals. totals.entries ≡ self.entries + 1) }
        ensures total { IfOk result (λ totals. totals.total ≡ self.total + amount_in (cell_of entry.entry)) }
    {
        let entries = self.entries.checked_add(1).ok_or(NoMemory)?;
        let total = self.total + u128::from(amount_in(entry));
        Ok(Totals { entries, total })
    }

    /// The totals of the entries that a source has left. `Err` comes where the source answers it, or beyond 2^64 entries.
    pub fn of_rest<S: SortedSource>(source: &mut S) -> Result<Totals, NoMemory>
        requires { S.valid source.old }
        ensures { IfOk result (AreTotalsOf (S.rest source.old)) }
    {
        let mut totals = Totals::none();
        while let Some(entry) = source.top() {
            totals = totals.with(entry)?;
            source.next()?;
        }
        Ok(totals)
    }
}
