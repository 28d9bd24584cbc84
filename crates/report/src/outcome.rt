ghost use Rattle.report.specs.Texts.{well_formed_text, accepted_text};

use crate::text::{Text, ToText, words_of};

// The form of a submission: how many lines it has.
#[derive(Clone, Copy, Debug, PartialEq, Eq)]
pub struct WellFormed {
    pub lines: usize,
}

impl ToText for WellFormed {
    ghost text = { well_formed_text };

    fn to_text(&self) -> Text {
        words_of("well-formed", &[self.lines as u64])
    }
}

// The award to a submission: the first serial awarded, and how many lines are awarded.
#[derive(Clone, Copy, Debug, PartialEq, Eq)]
pub struct Accepted {
    pub first: u32,
    pub lines: u32,
}

impl ToText for Accepted {
    ghost text = { accepted_text };

    fn to_text(&self) -> Text {
        words_of("accepted", &[u64::from(self.first), u64::from(self.lines)])
    }
}
