ghost use Rattle.std.specs.Prelude.{◌≡◌, ◌*◌, ◌≤◌, pos, negsuc, ◌-ℤ◌, ◌*ℤ◌, ◌≤ℤ◌, IfOk, Decides};
ghost use Rattle.calendar.specs.Figures.{figures};
ghost use Rattle.calendar.specs.Questions.{Answers};
ghost use Rattle.calendar.specs.Values.{IsMonth};
ghost use Rattle.money.specs.Floors.{cut as cut_of, reaches};
ghost use Rattle.money.specs.Transfers.{HasEnds, month_worth_of, worth_of, floor_of};

use crate::months::MonthSpan;
use calendar::Calendar;
use terms::Refusal;

// Power from one node to another in the valid months of a right, in kilowatts.
#[derive(Clone, Copy, Debug, PartialEq, Eq)]
pub struct Transfer {
    pub injection: u32,
    pub withdrawal: u32,
    pub power: u32,
    pub months: MonthSpan,
}

impl Transfer {
    // The floor of an offer for it, in ten-thousandths of a cent.
    pub fn floor(self, calendar: &Calendar) -> Result<u128, Refusal>
        ensures { Answers (HasEnds (figures calendar.now) self) (floor_of (figures calendar.now) self) result }
    {
        let mut sum: i128 = 0;
        for month in self.months.first()..=self.months.last() {
            sum += i128::from(self.month_worth(calendar, month)?);
        }
        Ok(cut(sum))
    }

    // Whether an offer in cents reaches the floor.
    pub fn reached_by(self, calendar: &Calendar, offer: u64) -> Result<bool, Refusal>
        ensures value { Answers (HasEnds (figures calendar.now) self) (reaches offer (floor_of (figures calendar.now) self)) result }
        ensures worth { IfOk result (λ b. Decides b (worth_of (figures calendar.now) self ≤ℤ pos (offer * 10000))) }
    {
        let floor = self.floor(calendar)?;
        Ok(u128::from(offer) * 10_000 >= floor)
    }

    // What the prices say that it is worth in a month, in ten-thousandths of a cent.
    fn month_worth(self, calendar: &Calendar, month: u32) -> Result<i64, Refusal>
        requires { IsMonth month }
        ensures { Answers (HasEnds (figures calendar.now) self) (month_worth_of (figures calendar.now) self month) result }
    {
        let withdrawal = calendar.price(self.withdrawal, month)?;
        let injection = calendar.price(self.injection, month)?;
        let hours = calendar.hours(month)?;
        Ok(worth(difference(withdrawal, injection), self.energy(hours)))
    }

    // The kilowatt-hours of so many hours.
    fn energy(self, hours: u32) -> i64
        requires { hours ≤ 744 }
        ensures { result ≡ pos (self.power * hours) }
    {
        i64::from(self.power) * i64::from(hours)
    }
}

// Nothing in place of a negative sum.
fn cut(sum: i128) -> u128
    ensures { result ≡ cut_of sum }
{
    u128::try_from(sum).unwrap_or(0)
}

// How far the withdrawal price is above the injection price.
fn difference(withdrawal: i32, injection: i32) -> i64
    ensures { result ≡ withdrawal -ℤ injection }
{
    i64::from(withdrawal) - i64::from(injection)
}

// A difference of prices times an energy in kilowatt-hours.
fn worth(difference: i64, energy: i64) -> i64
    requires difference { (negsuc 1999999 ≤ℤ difference) × (difference ≤ℤ pos 2000000) }
    requires energy { (pos 0 ≤ℤ energy) × (energy ≤ℤ pos (4294967295 * 744)) }
    ensures { result ≡ difference *ℤ energy }
{
    difference * energy
}
