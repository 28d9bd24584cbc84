ghost use Rattle.std.specs.Prelude.{◌≡◌, ◌-◌, ◌<◌, ◌≤◌, MatchResult};
ghost use Rattle.terms.specs.declared.refusal.Refusal.TheVariants.{Unknown};
ghost use Rattle.book.specs.Rights.{held_of};
ghost use Rattle.book.specs.States.{free_part, balance as balance_of};
ghost use Rattle.book.specs.Checks.{is_open};
ghost use Rattle.book.specs.Questions.{statement_of, statement as statement_answer, account as account_answer};
ghost use Rattle.book.specs.Views.{view};

use super::Ledger;
use crate::answers::{Account, Statement};
use crate::award::AwardNumbers;
use crate::right::Right;
use terms::Refusal;

// What is left of a balance when the guarantees held of a holder are taken from it, one by one.
fn less_held(rights: &[Right], balance: u64, holder: u32) -> u64
    ensures { result ≡ balance - held_of holder rights.now }
{
    let mut free = balance;
    for right in rights {
        if right.line.holder == holder {
            free = free.saturating_sub(right.held());
        }
    }
    free
}

impl From<Right> for Statement {
    ghost from_gives = { λ right statement. statement ≡ statement_of right };

    // What is charged, paid, owed and held on a right.
    fn from(right: Right) -> Statement {
        Statement {
            charge: right.charge(),
            paid: right.paid(),
            debt: right.debt(),
            guarantee: right.held(),
        }
    }
}

impl Ledger {
    // A holder's balance.
    pub(crate) fn balance(&self, holder: u32) -> Result<u64, Refusal>
        ensures { MatchResult result (λ n. (holder < 32) × (n ≡ balance_of (view self.now) holder)) (λ e. (e ≡ Unknown) × (32 ≤ holder)) }
    {
        self.balances
            .get(holder as usize)
            .copied()
            .ok_or(Refusal::Unknown)
    }

    // What of a holder's balance no guarantee holds.
    pub(crate) fn free_part(&self, holder: u32) -> u64
        requires { holder < 32 }
        ensures { result ≡ free_part (view self.now) holder }
    {
        less_held(
            self.rights.as_slice(),
            self.balances[holder as usize],
            holder,
        )
    }

    // Whether the three numbers are those of the award that is open.
    pub(crate) fn is_open(&self, award: AwardNumbers) -> bool
        ensures { result ≡ is_open (view self.now).number award.book award.first award.lines (view self.now).pending }
    {
        self.pending
            .is_some_and(|open| award == open.numbers(self.number))
    }

    // A holder's balance and free part.
    pub(crate) fn account(&self, holder: u32) -> Result<Account, Refusal>
        ensures { result ≡ account_answer (view self.now) holder }
    {
        Ok(Account {
            balance: self.balance(holder)?,
            free: self.free_part(holder),
        })
    }

    // What is charged, paid, owed and held on the right with a serial.
    pub(crate) fn statement(&self, serial: u32) -> Result<Statement, Refusal>
        ensures { result ≡ statement_answer (view self.now) serial }
    {
        self.rights
            .right(serial)
            .map(Statement::from)
            .ok_or(Refusal::Unknown)
    }
}
