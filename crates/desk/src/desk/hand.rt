ghost use Rattle.std.specs.Prelude.{◌≡◌, false, None, Some, Ok, Err, MatchResult, IfSome};
ghost use Rattle.terms.specs.declared.refusal.Refusal.TheVariants.{NoSuchAward};
ghost use Rattle.book.specs.Awards.{same_numbers};

use book::{Award, AwardNumbers, Returned};
use terms::Refusal;

// Takes the award in hand, if it has these numbers.
pub(super) fn presented(hand: &mut Option<Award>, numbers: AwardNumbers) -> Result<Award, Refusal>
    ensures { MatchResult result (λ a. (hand.old ≡ Some a) × (a.numbers ≡ numbers) × (hand.new ≡ None)) (λ e. (e ≡ NoSuchAward) × (hand.new ≡ hand.old) × IfSome hand.old (λ a. same_numbers a.numbers numbers ≡ false)) }
{
    hand.take_if(|award| award.numbers() == numbers)
        .ok_or(Refusal::NoSuchAward)
}

// Puts the award that a refusal handed back in hand again.
pub(super) fn kept(hand: &mut Option<Award>, ended: Result<(), Returned>) -> Result<(), Refusal>
    requires { hand.old ≡ None }
    ensures { MatchResult ended (λ _. (result ≡ Ok tt) × (hand.new ≡ None)) (λ back. (result ≡ Err back.refusal) × (hand.new ≡ Some back.award)) }
{
    // By match: the award moves in one arm.
    match ended {
        Ok(()) => Ok(()),
        Err(Returned { refusal, award }) => {
            *hand = Some(award);
            Err(refusal)
        }
    }
}
