ghost use Rattle.std.specs.Prelude.{◌≡◌, ◌≤◌, Decides, MatchOption};
ghost use Rattle.money.specs.Months.{IsValid, month_count};

// The valid months of a right, first to last.
#[derive(Clone, Copy, Debug, PartialEq, Eq)]
pub struct MonthSpan {
    first: u32,
    last: u32,
    ghost from: { 1 ≤ first },
    ghost ordered: { first ≤ last },
    ghost within: { last ≤ 12 },
}

impl MonthSpan {
    // The months first to last, if they are months of the year in this order.
    pub fn new(first: u32, last: u32) -> Option<MonthSpan>
        ensures { MatchOption result ((1 ≤ first) × (first ≤ last) × (last ≤ 12) → ⊥) (λ s. (s.first ≡ first) × (s.last ≡ last)) }
    {
        if first < 1 || last < first || last > terms::MONTHS {
            return None;
        }
        Some(MonthSpan { first, last })
    }

    // Accessors, since the fields are private for the sake of their facts.
    pub fn first(self) -> u32
        ensures { result ≡ self.first }
    {
        self.first
    }

    pub fn last(self) -> u32
        ensures { result ≡ self.last }
    {
        self.last
    }

    // How many months these are, 1 to 12.
    pub fn count(self) -> u32
        ensures value { result ≡ month_count self.first self.last }
        ensures range { (1 ≤ result) × (result ≤ 12) }
    {
        1 + self.last - self.first
    }

    pub fn contains(self, month: u32) -> bool
        ensures { Decides result (IsValid self.first self.last month) }
    {
        (self.first..=self.last).contains(&month)
    }
}
