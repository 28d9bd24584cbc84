ghost use Rattle.std.specs.Prelude.{◌≡◌};
ghost use Rattle.book.specs.Forms.{FormDecides};
ghost use Rattle.book.specs.Market.{market_of, RestsOn};
ghost use Rattle.book.specs.States.{fresh};
ghost use Rattle.book.specs.Calls.Answer.{Confirmed as confirmed_answer, Struck as struck_answer, DebtLeft as debt_left, Balance as balance_answer, Day as day_answer};
ghost use Rattle.book.specs.Calls.Call.{Propose as propose_call, Confirm as confirm_call, Strike as strike_call, Pay as pay_call, Annul as annul_call, Deposit as deposit_call, Withdraw as withdraw_call, SetDay as set_day_call};
ghost use Rattle.book.specs.Calls.{propose as proposing, confirm as confirming, strike as striking, pay as paying, annul as annulling, deposit as depositing, withdraw as withdrawing, set_day};
ghost use Rattle.book.specs.Results.{awarded, annulled, Untouched, LeftAsIs};
ghost use Rattle.book.specs.Living.{answered, settled, HandedBack, ComesTo};
ghost use Rattle.book.specs.Books.{CarriesOn};
ghost use Rattle.book.specs.Views.{view};

use super::Book;
use crate::answers::Annulment;
use crate::award::{Award, Returned};
use crate::basis::Basis;
use crate::ledger::Ledger;
use calendar::Calendar;
use flows::{FactorSource, UseRule};
use terms::Refusal;

// Contracts of one shape: each says of its own call what stays, what it answers, what it carries on, and that a refusal leaves the tables.
impl<S: FactorSource, R: UseRule> Book<S, R> {
    // A book just made over a source, a rule and a calendar: day 0, no rights, nothing on the accounts.
    pub fn new(number: u32, source: S, rule: R, calendar: Calendar) -> Book<S, R>
        ensures state { view result.ledger ≡ fresh number }
        ensures fixed { RestsOn source rule calendar result.basis }
    {
        Book {
            basis: Basis {
                source,
                rule,
                calendar,
            },
            ledger: Ledger::new(number),
        }
    }

    // Proposes the lines of a submission: enters them as provisional rights, holds their guarantees and hands out their award.
    pub fn propose(&mut self, words: &[u32]) -> Result<Award, Refusal>
        ensures fixed { self.new.basis ≡ self.old.basis }
        ensures gives { ComesTo (proposing (market_of S.FactorSource R.UseRule self.old.basis) (view self.old.ledger) words.now) (answered (λ a. awarded a.numbers) result) (view self.new.ledger) }
        ensures lived { CarriesOn S.FactorSource R.UseRule self.old (propose_call words.now) (answered (λ a. awarded a.numbers) result) self.new }
        ensures kept { Untouched result self.old.ledger self.new.ledger }
        ensures form { FormDecides }
    {
        let numbers = self.offer(words)?;
        Ok(Award::of(numbers))
    }

    // Takes an award back and puts its rights in force with their charges.
    pub fn confirm(&mut self, award: Award) -> Result<(), Returned>
        ensures fixed { self.new.basis ≡ self.old.basis }
        ensures gives { ComesTo (confirming (view self.old.ledger) award.numbers.book award.numbers.first award.numbers.lines) (settled confirmed_answer result) (view self.new.ledger) }
        ensures lived { CarriesOn S.FactorSource R.UseRule self.old (confirm_call award.numbers.book award.numbers.first award.numbers.lines) (settled confirmed_answer result) self.new }
        ensures kept { LeftAsIs result self.old.ledger self.new.ledger }
        ensures back { HandedBack award result }
    {
        let taken = self.ledger.confirm(award.numbers());
        award.ended(taken)
    }

    // Takes an award back, removes its rights and lets their guarantees go.
    pub fn strike(&mut self, award: Award) -> Result<(), Returned>
        ensures fixed { self.new.basis ≡ self.old.basis }
        ensures gives { ComesTo (striking (view self.old.ledger) award.numbers.book award.numbers.first award.numbers.lines) (settled struck_answer result) (view self.new.ledger) }
        ensures lived { CarriesOn S.FactorSource R.UseRule self.old (strike_call award.numbers.book award.numbers.first award.numbers.lines) (settled struck_answer result) self.new }
        ensures kept { LeftAsIs result self.old.ledger self.new.ledger }
        ensures back { HandedBack award result }
    {
        let taken = self.ledger.strike(award.numbers());
        award.ended(taken)
    }

    // Pays an amount on the right with a serial, and answers the debt left.
    pub fn pay(&mut self, serial: u32, amount: u64) -> Result<u64, Refusal>
        ensures fixed { self.new.basis ≡ self.old.basis }
        ensures gives { ComesTo (paying (view self.old.ledger) serial amount) (answered debt_left result) (view self.new.ledger) }
        ensures lived { CarriesOn S.FactorSource R.UseRule self.old (pay_call serial amount) (answered debt_left result) self.new }
        ensures kept { Untouched result self.old.ledger self.new.ledger }
    {
        self.ledger.pay(serial, amount)
    }

    // Removes a right that is overdue, and answers what is taken of its guarantee and what is written off.
    pub fn annul(&mut self, serial: u32) -> Result<Annulment, Refusal>
        ensures fixed { self.new.basis ≡ self.old.basis }
        ensures gives { ComesTo (annulling (market_of S.FactorSource R.UseRule self.old.basis) (view self.old.ledger) serial) (answered annulled result) (view self.new.ledger) }
        ensures lived { CarriesOn S.FactorSource R.UseRule self.old (annul_call serial) (answered annulled result) self.new }
        ensures kept { Untouched result self.old.ledger self.new.ledger }
    {
        self.remove_overdue(serial)
    }

    // Adds an amount to a holder's balance, and answers the balance.
    pub fn deposit(&mut self, holder: u32, amount: u64) -> Result<u64, Refusal>
        ensures fixed { self.new.basis ≡ self.old.basis }
        ensures gives { ComesTo (depositing (view self.old.ledger) holder amount) (answered balance_answer result) (view self.new.ledger) }
        ensures lived { CarriesOn S.FactorSource R.UseRule self.old (deposit_call holder amount) (answered balance_answer result) self.new }
        ensures kept { Untouched result self.old.ledger self.new.ledger }
    {
        self.ledger.deposit(holder, amount)
    }

    // Takes an amount of a holder's free part, and answers the balance.
    pub fn withdraw(&mut self, holder: u32, amount: u64) -> Result<u64, Refusal>
        ensures fixed { self.new.basis ≡ self.old.basis }
        ensures gives { ComesTo (withdrawing (view self.old.ledger) holder amount) (answered balance_answer result) (view self.new.ledger) }
        ensures lived { CarriesOn S.FactorSource R.UseRule self.old (withdraw_call holder amount) (answered balance_answer result) self.new }
        ensures kept { Untouched result self.old.ledger self.new.ledger }
    {
        self.ledger.withdraw(holder, amount)
    }

    // Sets the book's day, and answers it.
    pub fn set_day(&mut self, day: u32) -> Result<u32, Refusal>
        ensures fixed { self.new.basis ≡ self.old.basis }
        ensures gives { ComesTo (set_day (view self.old.ledger) day) (answered day_answer result) (view self.new.ledger) }
        ensures lived { CarriesOn S.FactorSource R.UseRule self.old (set_day_call day) (answered day_answer result) self.new }
        ensures kept { Untouched result self.old.ledger self.new.ledger }
    {
        self.ledger.set_day(day)
    }
}
