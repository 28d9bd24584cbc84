ghost use Rattle.std.specs.Prelude.{◌≡◌, ℕ, ◌≢◌, ◌<◌, ◌≤◌, true, pos};
ghost use Rattle.calendar.specs.Questions.{AnswersOne};
ghost use Rattle.calendar.specs.Rows.{row_mark};
ghost use Rattle.calendar.specs.Values.{IsPrice, IsRow};

use terms::Refusal;

// A price in a month, in thousandths of a dollar for a megawatt-hour. It has a sign, so it is no UpTo.
#[derive(Clone, Copy)]
pub(crate) struct Price {
    pub(crate) thousandths: i32,
    ghost in_range: { IsPrice thousandths },
}

// A number up to MOST.
#[derive(Clone, Copy)]
pub(crate) struct UpTo<const MOST: u32> {
    pub(crate) number: u32,
    ghost most: { number ≤ MOST },
}

// What a limit lets pass in a month, in kilowatts.
pub(crate) type Capacity = UpTo<{ terms::MOST_VALUE }>;

// The hours of a month.
pub(crate) type Hours = UpTo<{ terms::MOST_HOURS }>;

// The day on which a month's instalments are due.
pub(crate) type PayDay = UpTo<{ terms::MOST_PAY_DAY }>;

// The marks of a limit: bit j is that of pair j. They are read by shift and mask, so it is no UpTo.
#[derive(Clone, Copy)]
pub(crate) struct RelationRow {
    pub(crate) bits: u32,
    ghost in_range: { IsRow bits },
}

// By hand, as the two below: a struct with a ghost field derives no Default.
impl Default for Price {
    ghost is_default = { λ p. p.thousandths ≡ pos 0 };

    fn default() -> Price {
        Price { thousandths: 0 }
    }
}

impl TryFrom<i64> for Price {
    type Error = Refusal;

    ghost try_from_gives = { λ thousandths r. AnswersOne (IsPrice thousandths) (λ p. p.thousandths ≡ thousandths) r };

    fn try_from(thousandths: i64) -> Result<Price, Refusal> {
        let most = i64::from(terms::MOST_PRICE);
        if !(-most..=most).contains(&thousandths) {
            return Err(Refusal::CalendarValue);
        }
        Ok(Price {
            thousandths: thousandths as i32,
        })
    }
}

impl<const MOST: u32> Default for UpTo<MOST> {
    ghost is_default = { λ n. n.number ≡ 0 };

    fn default() -> UpTo<MOST> {
        UpTo { number: 0 }
    }
}

impl<const MOST: u32> TryFrom<u32> for UpTo<MOST> {
    type Error = Refusal;

    ghost try_from_gives = { λ number r. AnswersOne (number ≤ MOST) (λ n. n.number ≡ number) r };

    fn try_from(number: u32) -> Result<UpTo<MOST>, Refusal> {
        if number > MOST {
            return Err(Refusal::CalendarValue);
        }
        Ok(UpTo { number })
    }
}

impl Default for RelationRow {
    ghost is_default = { λ row. row.bits ≡ 0 };

    fn default() -> RelationRow {
        RelationRow { bits: 0 }
    }
}

impl RelationRow {
    // Whether the pair of this number is marked.
    #[tactic(auto, using(std::proofs::lemmas::Nat::Bits::shr_and_one))]
    pub(crate) fn mark(self, pair: u32) -> bool
        requires { pair < 30 }
        ensures { result ≡ row_mark self.bits pair }
    {
        (self.bits >> pair) & 1 == 1
    }

    // This row with the pair of this number marked.
    pub(crate) fn with_mark(self, pair: u32) -> RelationRow
        requires { pair < 30 }
        ensures marked { row_mark result.bits pair ≡ true }
        ensures others { (other : ℕ) → other ≢ pair → row_mark result.bits other ≡ row_mark self.bits other }
    {
        RelationRow {
            bits: self.bits | 1 << pair,
        }
    }
}

impl TryFrom<u32> for RelationRow {
    type Error = Refusal;

    ghost try_from_gives = { λ bits r. AnswersOne (IsRow bits) (λ row. row.bits ≡ bits) r };

    fn try_from(bits: u32) -> Result<RelationRow, Refusal> {
        if bits >= 1 << terms::PAIRS {
            return Err(Refusal::CalendarValue);
        }
        Ok(RelationRow { bits })
    }
}
