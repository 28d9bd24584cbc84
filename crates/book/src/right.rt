ghost use Rattle.std.specs.Prelude.{◌≡◌, ◌≤◌, cond};
ghost use Rattle.book.specs.Rights.{is_in_force, paid_of, confirmed, guarantee as guarantee_due, debt as debt_of, held as held_on, paying as paying_of, taking as taking_of};

use submission::Line;

// An Option of what is paid would name neither state.
// Provisional until the award is confirmed; then in force, with what is paid of the charge, in cents.
#[derive(Clone, Copy)]
pub enum Standing {
    Provisional,
    InForce { paid: u64 },
}

// A right of the book.
#[derive(Clone, Copy)]
pub struct Right {
    pub serial: u32,
    pub line: Line,
    pub standing: Standing,
}

// A row with no right; the table of rights is an array of 96 of these.
pub const EMPTY: Right = Right {
    serial: 0,
    line: Line {
        holder: 0,
        injection: 0,
        withdrawal: 0,
        first: 0,
        last: 0,
        power: 0,
        offer: 0,
        charge: 0,
    },
    standing: Standing::Provisional,
};

// The guarantee due on a line's offer.
pub(crate) fn guarantee(line: Line) -> u64
    ensures { result ≡ guarantee_due line }
{
    money::guarantee(line.offer, line.first, line.last)
}

impl Right {
    pub(crate) fn is_in_force(self) -> bool
        ensures { result ≡ is_in_force self }
    {
        matches!(self.standing, Standing::InForce { .. })
    }

    // The charge, once the right is in force.
    pub(crate) fn charge(self) -> u64
        ensures { result ≡ cond (is_in_force self) self.line.charge 0 }
    {
        match self.standing {
            Standing::Provisional => 0,
            Standing::InForce { .. } => self.line.charge,
        }
    }

    // What is paid of the charge, nothing while the right is provisional.
    pub(crate) fn paid(self) -> u64
        ensures { result ≡ paid_of self }
    {
        match self.standing {
            Standing::Provisional => 0,
            Standing::InForce { paid } => paid,
        }
    }

    // What is left to pay of the charge, once in force.
    pub(crate) fn debt(self) -> u64
        ensures { result ≡ debt_of self }
    {
        match self.standing {
            Standing::Provisional => 0,
            Standing::InForce { paid } => self.line.charge.saturating_sub(paid),
        }
    }

    // The guarantee held: while the right is provisional, or in force with a debt.
    pub(crate) fn held(self) -> u64
        ensures { result ≡ held_on self }
    {
        if !self.is_in_force() || self.debt() > 0 {
            guarantee(self.line)
        } else {
            0
        }
    }

    // The right in force, with what was paid before.
    pub(crate) fn confirmed(self) -> Right
        ensures { result ≡ confirmed self }
    {
        Right {
            standing: Standing::InForce { paid: self.paid() },
            ..self
        }
    }

    // The right after a payment, which is up to the debt.
    pub(crate) fn paying(self, amount: u64) -> Right
        requires { amount ≤ debt_of self }
        ensures { result ≡ paying_of self amount }
    {
        match self.standing {
            Standing::Provisional => self,
            Standing::InForce { paid } => Right {
                standing: Standing::InForce {
                    paid: paid + amount,
                },
                ..self
            },
        }
    }

    // What an annulment takes: the guarantee held, up to the debt.
    pub(crate) fn taking(self) -> u64
        ensures value { result ≡ taking_of self }
        ensures bound { result ≤ debt_of self }
    {
        self.held().min(self.debt())
    }
}
