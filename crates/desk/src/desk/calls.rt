ghost use Rattle.std.specs.Prelude.{◌≡◌};
ghost use Rattle.book.specs.Books.{CarriesOn};
ghost use Rattle.calendar.specs.Figures.{figures};
ghost use Rattle.book.specs.Market.{market, market_of, RestsOn};
ghost use Rattle.book.specs.States.{fresh};
ghost use Rattle.book.specs.Calls.{act, propose as proposing, confirm as confirming, strike as striking};
ghost use Rattle.book.specs.Calls.Answer.{Confirmed as confirmed_answer, Struck as struck_answer};
ghost use Rattle.book.specs.Results.{awarded};
ghost use Rattle.book.specs.Living.{answered, ComesTo};
ghost use Rattle.desk.specs.Runs.{asked, said, struck_open, Runs};
ghost use Rattle.book.specs.Views.{view};

use super::hand::{kept, presented};
use super::{Answer, Call, Desk, Outcome};
use book::{AwardNumbers, Book};
use calendar::Calendar;
use flows::{FactorSource, UseRule};
use terms::Refusal;

impl<S: FactorSource, R: UseRule> Desk<S, R> {
    // A desk with a book just made, and no award in hand.
    pub fn new(number: u32, source: S, rule: R, calendar: Calendar) -> Desk<S, R>
        ensures state { view result.book.ledger ≡ fresh number }
        ensures fixed { RestsOn source rule calendar result.book.basis }
    {
        Desk {
            book: Book::new(number, source, rule, calendar),
            hand: None,
        }
    }

    // The book, for questions.
    pub fn book(&self) -> &Book<S, R>
        ensures { result.now ≡ self.now.book }
    {
        &self.book
    }

    // Proposes, and takes the award in hand.
    fn propose(&mut self, words: &[u32]) -> Result<AwardNumbers, Refusal>
        ensures fixed { self.new.book.basis ≡ self.old.book.basis }
        ensures gives { ComesTo (proposing (market_of S.FactorSource R.UseRule self.old.book.basis) (view self.old.book.ledger) words.now) (answered awarded result) (view self.new.book.ledger) }
    {
        let award = self.book.propose(words)?;
        let numbers = award.numbers();
        self.hand = Some(award);
        Ok(numbers)
    }

    // Confirms the award in hand, if it has these numbers.
    fn confirm(&mut self, numbers: AwardNumbers) -> Result<(), Refusal>
        ensures fixed { self.new.book.basis ≡ self.old.book.basis }
        ensures gives { ComesTo (confirming (view self.old.book.ledger) numbers.book numbers.first numbers.lines) (answered (λ _. confirmed_answer) result) (view self.new.book.ledger) }
    {
        let award = presented(&mut self.hand, numbers)?;
        let ended = self.book.confirm(award);
        kept(&mut self.hand, ended)
    }

    // Strikes the award in hand, if it has these numbers. It differs from `confirm` in one call, which a closure would hide.
    fn strike(&mut self, numbers: AwardNumbers) -> Result<(), Refusal>
        ensures fixed { self.new.book.basis ≡ self.old.book.basis }
        ensures gives { ComesTo (striking (view self.old.book.ledger) numbers.book numbers.first numbers.lines) (answered (λ _. struck_answer) result) (view self.new.book.ledger) }
    {
        let award = presented(&mut self.hand, numbers)?;
        let ended = self.book.strike(award);
        kept(&mut self.hand, ended)
    }

    // One call, by its kind.
    fn dispatch(&mut self, call: Call<'_>) -> Result<Answer, Refusal>
        ensures fixed { self.new.book.basis ≡ self.old.book.basis }
        ensures gives { ComesTo (act (market_of S.FactorSource R.UseRule self.old.book.basis) (view self.old.book.ledger) (asked call.entry)) (answered said result) (view self.new.book.ledger) }
    {
        match call {
            Call::Propose(words) => self.propose(words).map(Answer::Awarded),
            Call::Confirm(numbers) => self.confirm(numbers).map(|()| Answer::Confirmed),
            Call::Strike(numbers) => self.strike(numbers).map(|()| Answer::Struck),
            Call::Pay { serial, amount } => self.book.pay(serial, amount).map(Answer::DebtLeft),
            Call::Annul { serial } => self.book.annul(serial).map(Answer::Annulled),
            Call::Deposit { holder, amount } => {
                self.book.deposit(holder, amount).map(Answer::Balance)
            }
            Call::Withdraw { holder, amount } => {
                self.book.withdraw(holder, amount).map(Answer::Balance)
            }
            Call::SetDay { day } => self.book.set_day(day).map(Answer::Day),
        }
    }

    // Makes one call. An award is presented by its three numbers; others than those of the award in hand are refused.
    pub fn answer(&mut self, call: Call<'_>) -> Result<Answer, Refusal>
        ensures fixed { self.new.book.basis ≡ self.old.book.basis }
        ensures gives { ComesTo (act (market_of S.FactorSource R.UseRule self.old.book.basis) (view self.old.book.ledger) (asked call.entry)) (answered said result) (view self.new.book.ledger) }
        ensures lived { CarriesOn S.FactorSource R.UseRule self.old.book (asked call.entry) (answered said result) self.new.book }
    {
        self.dispatch(call)
    }

    // Ends the desk: an award in hand is struck.
    pub fn close(self) -> Book<S, R>
        ensures fixed { result.basis ≡ self.book.basis }
        ensures state { view result.ledger ≡ struck_open (view self.book.ledger) }
    {
        let Desk { book, hand } = self;
        let mut book = book;
        if let Some(award) = hand {
            let Ok(()) = book.strike(award) else {
                unreachable()
            };
        }
        book
    }
}

// Makes the calls in their order on a book just made, as many as there is room for answers.
pub fn run<S: FactorSource, R: UseRule>(
    number: u32,
    source: S,
    rule: R,
    calendar: Calendar,
    calls: &[Call<'_>],
    answers: &mut [Result<Answer, Refusal>],
) -> Outcome<S, R>
    ensures fixed { RestsOn source rule calendar result.desk.book.basis }
    ensures runs { Runs (market (S.FactorSource.means source) (R.UseRule.worst rule) (figures calendar)) (R.UseRule.allowed rule) number calls.now answers.old answers.new result.made (view result.desk.book.ledger) }
{
    let mut desk = Desk::new(number, source, rule, calendar);
    let made = calls.len().min(answers.len());
    // By place: in a loop over `answers.iter_mut().zip(calls)` a proof knows nothing of the answers written (tried).
    for (i, call) in calls[..made].iter().enumerate() {
        answers[i] = desk.answer(*call);
    }
    Outcome { desk, made }
}
