ghost use Rattle.std.specs.Prelude.{◌≡◌};

use terms::Refusal;

mod numbers;

// The three numbers of an award: its book, its first serial and how many lines it has.
#[derive(Clone, Copy, Debug, PartialEq, Eq)]
pub struct AwardNumbers {
    pub book: u32,
    pub first: u32,
    pub lines: u32,
}

// An accepted proposal through its challenge day. It ends in a book's `confirm` or `strike`: its `drop` asks for an award of
// no lines, which no proposal hands out, so code that lets one go is not proved.
pub struct Award {
    numbers: AwardNumbers,
}

impl Drop for Award {
    fn drop(self)
        requires { self.numbers.lines ≡ 0 }
    {
        let Award { numbers: _ } = self;
    }
}

// A refusal of `confirm` or `strike`, with the award that it hands back.
#[derive(Drop)]
pub struct Returned {
    pub refusal: Refusal,
    pub award: Award,
}
