ghost use Rattle.std.specs.Prelude.{◌≡◌};
ghost use Rattle.std.specs.Option.{ok_or};
ghost use Rattle.terms.specs.declared.refusal.Refusal.TheVariants.{CalendarValue};
ghost use Rattle.calendar.specs.Kinds.{direction_numbered, kind_numbered, number_of_direction, number_of_kind};

use terms::Refusal;

// What a limit bounds: flow out of its area, into it, or through it. Its number is `u32::from`; a cast counts the cases from 0.
#[derive(Clone, Copy, Debug, PartialEq, Eq)]
pub enum LimitKind {
    Export,
    Import,
    Wheeling,
}

// Which way a limit bounds flow. Areas are numbered from north to south. Its number is `u32::from`, as for kinds.
#[derive(Clone, Copy, Debug, PartialEq, Eq)]
pub enum Direction {
    Southward,
    Northward,
}

impl TryFrom<u32> for LimitKind {
    type Error = Refusal;

    ghost try_from_gives = { λ number r. r ≡ ok_or (kind_numbered number) CalendarValue };

    // The numbers are those of the calls and of the docs.
    fn try_from(number: u32) -> Result<LimitKind, Refusal> {
        match number {
            1 => Ok(LimitKind::Export),
            2 => Ok(LimitKind::Import),
            3 => Ok(LimitKind::Wheeling),
            _ => Err(Refusal::CalendarValue),
        }
    }
}

impl From<LimitKind> for u32 {
    ghost from_gives = { λ kind number. number ≡ number_of_kind kind };

    fn from(kind: LimitKind) -> u32 {
        kind as u32 + 1
    }
}

// As for kinds: two types, with numbers of their own.
impl TryFrom<u32> for Direction {
    type Error = Refusal;

    ghost try_from_gives = { λ number r. r ≡ ok_or (direction_numbered number) CalendarValue };

    // The numbers are those of the calls and of the docs.
    fn try_from(number: u32) -> Result<Direction, Refusal> {
        match number {
            1 => Ok(Direction::Southward),
            2 => Ok(Direction::Northward),
            _ => Err(Refusal::CalendarValue),
        }
    }
}

impl From<Direction> for u32 {
    ghost from_gives = { λ direction number. number ≡ number_of_direction direction };

    fn from(direction: Direction) -> u32 {
        direction as u32 + 1
    }
}
