ghost use Rattle.std.specs.Prelude.{◌≡◌};
ghost use Rattle.terms.specs.Refusals.{fields_of, five_fields};

// Why a call is refused, with the fields that the refusal names.
#[derive(Clone, Copy, Debug, PartialEq, Eq)]
pub enum Refusal {
    // A calendar value is beyond its range, or a named node, month or limit is absent.
    CalendarValue,
    // The calendar's limits or nodes are full.
    CalendarFull,
    // References are not 1 to 300, a pair is not two different areas, or flows do not number references × limits.
    References,
    // A reference flow strays: the reference, from 1, and the limit.
    Stray {
        place: usize,
        limit: u32,
    },
    // The words break the form: the word, from 1, or one past the end.
    Form {
        place: usize,
    },
    // The writer has a wrong line count, a field too wide or too short a buffer.
    Unwritable,
    // A provisional award is open.
    AwardOpen,
    // A line's holder, nodes, areas, months, power, offer or charge: the line, from 1.
    BadLine {
        place: usize,
    },
    // The offer of a line is below the floor.
    BelowFloor {
        place: usize,
    },
    // The source has no factor for a line in a month at a limit.
    NoFactor {
        place: usize,
        month: u32,
        limit: u32,
    },
    // The holder's free part does not cover the guarantee of a line.
    Uncovered {
        place: usize,
    },
    // Rows or serials do not suffice.
    NoRoom,
    // A limit is passed by the load after the change, by the excess in millionths of a kilowatt.
    LimitPassed {
        month: u32,
        limit: u32,
        excess: u64,
    },
    // A holder, month, limit or right is unknown.
    Unknown,
    // The amount is none, or too large.
    BadAmount,
    // The day is before the book's.
    DayPast,
    // The right is not overdue.
    NotOverdue,
    // No award open here has this one's three numbers.
    NoSuchAward,
}

// A refusal as five numbers, each 0 where the refusal does not name it.
#[derive(Clone, Copy, Debug, PartialEq, Eq)]
pub struct Fields {
    pub number: u32,
    pub place: usize,
    pub month: u32,
    pub limit: u32,
    pub excess: u64,
}

impl Refusal {
    // The refusal's five numbers, which no other refusal has.
    pub fn fields(self) -> Fields
        ensures named { result ≡ fields_of self }
        ensures alone { (other : Refusal) → fields_of other ≡ result → other ≡ self }
    {
        match self {
            Refusal::CalendarValue => five(1, 0, 0, 0, 0),
            Refusal::CalendarFull => five(2, 0, 0, 0, 0),
            Refusal::References => five(3, 0, 0, 0, 0),
            Refusal::Stray { place, limit } => five(4, place, 0, limit, 0),
            Refusal::Form { place } => five(5, place, 0, 0, 0),
            Refusal::Unwritable => five(6, 0, 0, 0, 0),
            Refusal::AwardOpen => five(7, 0, 0, 0, 0),
            Refusal::BadLine { place } => five(8, place, 0, 0, 0),
            Refusal::BelowFloor { place } => five(9, place, 0, 0, 0),
            Refusal::NoFactor {
                place,
                month,
                limit,
            } => five(10, place, month, limit, 0),
            Refusal::Uncovered { place } => five(11, place, 0, 0, 0),
            Refusal::NoRoom => five(12, 0, 0, 0, 0),
            Refusal::LimitPassed {
                month,
                limit,
                excess,
            } => five(13, 0, month, limit, excess),
            Refusal::Unknown => five(14, 0, 0, 0, 0),
            Refusal::BadAmount => five(15, 0, 0, 0, 0),
            Refusal::DayPast => five(16, 0, 0, 0, 0),
            Refusal::NotOverdue => five(17, 0, 0, 0, 0),
            Refusal::NoSuchAward => five(18, 0, 0, 0, 0),
        }
    }
}

// A refusal's number, place, month, limit and excess, in this order. A literal with names takes six lines for each refusal,
// where this takes one.
const fn five(number: u32, place: usize, month: u32, limit: u32, excess: u64) -> Fields
    ensures { result ≡ five_fields number place month limit excess }
{
    Fields {
        number,
        place,
        month,
        limit,
        excess,
    }
}
