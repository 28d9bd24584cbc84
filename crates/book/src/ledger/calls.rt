ghost use Rattle.std.specs.Prelude.{◌≡◌, ◌+◌, ◌-◌, ◌^◌, ◌<◌, OnOk};
ghost use Rattle.book.specs.States.{fresh, opened, closed, with_rights, with_balance, balance as balance_of};
ghost use Rattle.book.specs.Checks.{award_check};
ghost use Rattle.book.specs.Refusing.{told};
ghost use Rattle.book.specs.Calls.Answer.{Confirmed, Struck, DebtLeft, Balance, Day};
ghost use Rattle.book.specs.Calls.{confirm as confirming, strike as striking, pay as paying, deposit as depositing, withdraw as withdrawing, set_day};
ghost use Rattle.book.specs.Results.{Gives, Untouched};
ghost use Rattle.book.specs.Views.{view, rights};

use super::{Ledger, Pending};
use crate::award::AwardNumbers;
use crate::rights::Rights;
use terms::{HOLDERS, MOST_BALANCE, Refusal};

impl Ledger {
    // A book just made: day 0, no rights, nothing on the accounts.
    pub(crate) fn new(number: u32) -> Ledger
        ensures { view result ≡ fresh number }
    {
        Ledger {
            number,
            day: 0,
            next: 1,
            pending: None,
            rights: Rights::none(),
            balances: [0; HOLDERS],
        }
    }

    pub(crate) fn set_day(&mut self, day: u32) -> Result<u32, Refusal>
        ensures gives { Gives Day (set_day (view self.old) day) result (view self.new) }
        ensures kept { Untouched result self.old self.new }
    {
        if day < self.day {
            return Err(Refusal::DayPast);
        }
        self.day = day;
        Ok(day)
    }

    pub(crate) fn deposit(&mut self, holder: u32, amount: u64) -> Result<u64, Refusal>
        ensures gives { Gives Balance (depositing (view self.old) holder amount) result (view self.new) }
        ensures kept { Untouched result self.old self.new }
    {
        let balance = self.balance(holder)?;
        if amount == 0 || amount > MOST_BALANCE.saturating_sub(balance) {
            return Err(Refusal::BadAmount);
        }
        self.balances[holder as usize] = balance + amount;
        Ok(balance + amount)
    }

    pub(crate) fn withdraw(&mut self, holder: u32, amount: u64) -> Result<u64, Refusal>
        ensures gives { Gives Balance (withdrawing (view self.old) holder amount) result (view self.new) }
        ensures kept { Untouched result self.old self.new }
    {
        let balance = self.balance(holder)?;
        let free = self.free_part(holder);
        if amount == 0 || amount > free {
            return Err(Refusal::BadAmount);
        }
        self.balances[holder as usize] = balance - amount;
        Ok(balance - amount)
    }

    // Puts the rights of a proposal in the place of those before, and opens its award.
    pub(crate) fn open_award(&mut self, after: Rights, award: AwardNumbers)
        requires { self.old.next + award.lines < 2 ^ 32 }
        ensures { view self.new ≡ opened (view self.old) (rights after) award.first award.lines }
    {
        self.rights = after;
        self.next += award.lines;
        self.pending = Some(Pending {
            first: award.first,
            lines: award.lines,
        });
    }

    // Puts the rights that remain in the place of those before, and takes an amount from a holder's balance.
    pub(crate) fn close_account(&mut self, remaining: Rights, holder: u32, amount: u64)
        ensures { view self.new ≡ with_balance (with_rights (view self.old) (rights remaining)) holder (balance_of (view self.old) holder - amount) }
    {
        self.rights = remaining;
        // By its index: what `get_mut` promises does not reach the table as a whole.
        let holder = holder as usize;
        if holder < HOLDERS {
            self.balances[holder] = self.balances[holder].saturating_sub(amount);
        }
    }

    // Takes the open award back, if it has these numbers; its rights stay as they are.
    fn take_back(&mut self, award: AwardNumbers) -> Result<(), Refusal>
        ensures answer { result ≡ told (award_check (view self.old) award.book award.first award.lines) }
        ensures taken { OnOk result (view self.new ≡ closed (view self.old) (view self.old).rights) }
        ensures kept { Untouched result self.old self.new }
    {
        if !self.is_open(award) {
            return Err(Refusal::NoSuchAward);
        }
        self.pending = None;
        Ok(())
    }

    // Takes the open award back and puts its rights in force.
    pub(crate) fn confirm(&mut self, award: AwardNumbers) -> Result<(), Refusal>
        ensures gives { Gives (λ _. Confirmed) (confirming (view self.old) award.book award.first award.lines) result (view self.new) }
        ensures kept { Untouched result self.old self.new }
    {
        self.take_back(award)?;
        self.rights.put_in_force();
        Ok(())
    }

    // Takes the open award back and removes its rights. It differs from `confirm` in one step, which a closure would hide.
    pub(crate) fn strike(&mut self, award: AwardNumbers) -> Result<(), Refusal>
        ensures gives { Gives (λ _. Struck) (striking (view self.old) award.book award.first award.lines) result (view self.new) }
        ensures kept { Untouched result self.old self.new }
    {
        self.take_back(award)?;
        self.rights.keep_in_force();
        Ok(())
    }

    // Pays on the right with a serial, and answers the debt left.
    pub(crate) fn pay(&mut self, serial: u32, amount: u64) -> Result<u64, Refusal>
        ensures gives { Gives DebtLeft (paying (view self.old) serial amount) result (view self.new) }
        ensures kept { Untouched result self.old self.new }
    {
        let (at, right) = self.rights.in_force_at(serial)?;
        let debt = right.debt();
        if amount == 0 || amount > debt {
            return Err(Refusal::BadAmount);
        }
        self.rights.pay(at, amount);
        Ok(debt - amount)
    }
}
