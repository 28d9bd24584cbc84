ghost use Rattle.std.specs.Prelude.{◌≡◌, ◌+◌, ◌^◌, ◌<◌, ◌≤◌, [], ◌∷◌, ◌++◌, length};
ghost use Rattle.std.specs.List.{AllByRecursion};
ghost use Rattle.terms.specs.Ranges.{most_power};
ghost use Rattle.submission.specs.Reading.{ahead};
ghost use Rattle.book.specs.Market.{market_of};
ghost use Rattle.book.specs.Refusing.{told};
ghost use Rattle.book.specs.Checks.{lines_check};
ghost use Rattle.book.specs.Rights.{numbered};
ghost use Rattle.book.specs.Views.{view, rights};

use super::Book;
use crate::right::{Right, Standing};
use crate::rights::Rights;
use flows::{FactorSource, UseRule};
use submission::Reader;
use terms::Refusal;

impl<S: FactorSource, R: UseRule> Book<S, R> {
    // The checks of the lines that are left of a submission, one after another.
    pub(super) fn check_lines(&self, reader: Reader<'_>) -> Result<(), Refusal>
        ensures { result ≡ told (lines_check (market_of S.FactorSource R.UseRule self.now.basis) (view self.now.ledger) 1 [] (ahead reader.entry.words.now reader.entry.at)) }
    {
        let mut free = self.ledger.free_parts();
        for (earlier, part) in reader.enumerate() {
            self.basis.check_next(earlier + 1, &part.line(), &mut free)?;
        }
        Ok(())
    }
}

// Enters the lines that are left of a submission as provisional rights, numbered from a serial on. There is room for them.
pub(super) fn enter(table: &mut Rights, reader: Reader<'_>, serial: u32)
    requires room { length (rights table.old) + length (ahead reader.words.now reader.at) ≤ 96 }
    requires serials { serial + length (ahead reader.words.now reader.at) < 2 ^ 32 }
    requires small { AllByRecursion (λ x. x.power ≤ most_power) (ahead reader.words.now reader.at) }
    ensures { rights table.new ≡ rights table.old ++ numbered serial (ahead reader.entry.words.now reader.entry.at) }
{
    for (part, serial) in reader.zip(serial..) {
        table.push(Right {
            serial,
            line: part.line(),
            standing: Standing::Provisional,
        });
    }
}
