ghost use Rattle.std.specs.Prelude.{◌≡◌, ◌-◌, false, Decides, MatchOption};
ghost use Rattle.calendar.specs.Figures.{figures};
ghost use Rattle.money.specs.Months.{IsValid};
ghost use Rattle.money.specs.Instalments.{Even, SumToCharge};
ghost use Rattle.money.specs.Charges.{IsDue, instalment_of, earlier_of, paid_of, IsPartOf, debt_of, late_of, overdue_of, AreOverdue};

use crate::months::MonthSpan;
use calendar::Calendar;

// A charge over the valid months of a right, and what is paid of it.
#[derive(Clone, Copy, Debug, PartialEq, Eq)]
pub struct Dues {
    pub months: MonthSpan,
    pub charge: u64,
    pub paid: u64,
}

// The instalment of a month, what is paid of it and what it lacks.
#[derive(Clone, Copy, Debug, PartialEq, Eq)]
pub struct Instalment {
    pub amount: u64,
    pub paid: u64,
    pub lacking: u64,
}

impl Dues {
    // What is still to pay: the sum of what the instalments lack.
    #[tactic(auto, using(crate::proofs::Splits::debt_rest))]
    pub fn debt(self) -> u64
        ensures value { result ≡ debt_of self }
        ensures rest { result ≡ self.charge - self.paid }
    {
        self.charge.saturating_sub(self.paid)
    }

    // The instalment of a month, if the month is valid.
    #[tactic(auto, using(crate::proofs::Splits::sum_to_charge))]
    pub fn instalment(self, month: u32) -> Option<Instalment>
        ensures month { MatchOption result (IsDue self month → ⊥) (λ i. IsDue self month × IsPartOf self month i) }
        ensures whole { SumToCharge self.charge self.months.first self.months.last }
        ensures even { Even self.charge self.months.first self.months.last }
    {
        if !self.months.contains(month) {
            return None;
        }
        Some(DueMonth { dues: self, month }.instalment())
    }

    // Whether some instalment lacks something and the day is past its pay day.
    pub fn overdue(self, calendar: &Calendar, day: u32) -> bool
        ensures value { result ≡ overdue_of (figures calendar.now) self day }
        ensures month { Decides result (AreOverdue (figures calendar.now) self day) }
        ensures settled { debt_of self ≡ 0 → result ≡ false }
    {
        (self.months.first()..self.months.last() + 1).any(
            |month|
                requires { IsDue self month }
            { DueMonth { dues: self, month }.is_late(calendar, day) },
        )
    }
}

// A month in which an instalment is due.
#[derive(Clone, Copy)]
struct DueMonth {
    dues: Dues,
    month: u32,
    ghost due: { IsValid dues.months.first dues.months.last month },
}

impl DueMonth {
    fn instalment(self) -> Instalment
        ensures { IsPartOf self.dues self.month result }
    {
        let amount = self.amount();
        let paid = self.paid();
        Instalment {
            amount,
            paid,
            lacking: amount - paid,
        }
    }

    // Whether the instalment lacks something and the day is past its pay day.
    fn is_late(self, calendar: &Calendar, day: u32) -> bool
        ensures { result ≡ late_of (figures calendar.now) self.dues day self.month }
    {
        self.instalment().lacking > 0
            && calendar
                .pay_day(self.month)
                .is_ok_and(|pay_day| day > pay_day)
    }

    // The whole quotient, and a cent more in the lowest months until the remainder is used.
    fn amount(self) -> u64
        ensures { result ≡ instalment_of self.dues self.month }
    {
        let place = self.place();
        let count = u64::from(self.dues.months.count());
        let quotient = self.dues.charge / count;
        if place < self.dues.charge % count {
            quotient + 1
        } else {
            quotient
        }
    }

    // The instalments of the months before this one.
    #[tactic(auto, using(crate::proofs::Splits::earlier_split))]
    fn earlier(self) -> u64
        ensures { result ≡ earlier_of self.dues self.month }
    {
        let place = self.place();
        let count = u64::from(self.dues.months.count());
        let charge = self.dues.charge;
        place * (charge / count) + place.min(charge % count)
    }

    // What of the payments is in the month's instalment, after the earlier ones.
    fn paid(self) -> u64
        ensures { result ≡ paid_of self.dues self.month }
    {
        let left = self.dues.paid.saturating_sub(self.earlier());
        self.amount().min(left)
    }

    // How many months are before this one.
    fn place(self) -> u64
        ensures { result ≡ self.month - self.dues.months.first }
    {
        u64::from(self.month - self.dues.months.first())
    }
}
