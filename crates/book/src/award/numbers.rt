ghost use Rattle.std.specs.Prelude.{◌≡◌, Result};
ghost use Rattle.terms.specs.declared.refusal.Refusal.{Refusal as Reason};
ghost use Rattle.book.specs.Awards.{EndedAs};

use super::{Award, AwardNumbers, Returned};
use terms::Refusal;

impl Award {
    // The award of an accepted proposal. No `From`: only a book makes awards.
    pub(crate) fn of(numbers: AwardNumbers) -> Award
        ensures { result.numbers ≡ numbers }
    {
        Award { numbers }
    }

    pub fn numbers(&self) -> AwardNumbers
        ensures { result ≡ self.now.numbers }
    {
        self.numbers
    }

    // The end of an award where its book took it back; the award again, with the refusal, where it did not.
    pub(crate) fn ended(self, taken: Result<(), Refusal>) -> Result<(), Returned>
        ensures { EndedAs taken self result }
    {
        // By match: the award moves in each arm.
        match taken {
            Ok(()) => {
                let Award { numbers: _ } = self;
                Ok(())
            }
            Err(refusal) => Err(Returned {
                refusal,
                award: self,
            }),
        }
    }
}
