ghost use Rattle.std.specs.Prelude.{◌≡◌, ℕ, ◌+◌, ◌*◌, ◌<◌, List, ◌++◌, length};
ghost use Rattle.report.specs.Texts.{numbers_text, refusal_text};

use arrayvec::ArrayString;
use itoa::Buffer;
use terms::Refusal;

// No line is longer.
pub const LONGEST_LINE: usize = 128;

// A text in the making, held in place.
pub type Text = ArrayString<LONGEST_LINE>;

// What a line can say. `Display` does not serve: its contract lets any text fail, and a line that fits its buffer never does.
pub trait ToText {
    ghost text: { Self → List ℕ };

    // The text, with room for a newline behind it.
    fn to_text(&self) -> Text
        ensures text { result.bytes ≡ text self.now }
        ensures room { length result.bytes < 128 };
}

impl ToText for Refusal {
    ghost text = { refusal_text };

    fn to_text(&self) -> Text {
        let fields = self.fields();
        words_of(
            "refused",
            &[
                u64::from(fields.number),
                fields.place as u64,
                u64::from(fields.month),
                u64::from(fields.limit),
                fields.excess,
            ],
        )
    }
}

// A word and numbers, a space before each.
pub(crate) fn words_of(word: &str, numbers: &[u64]) -> Text
    requires { length word.now + 21 * length numbers.now < 128 }
    ensures text { result.bytes ≡ word.now ++ numbers_text numbers.now }
    ensures room { length result.bytes < 128 }
{
    let mut text = Text::new();
    text.push_str(word);
    for number in numbers {
        text.push(' ');
        text.push_str(Buffer::new().format(*number));
    }
    text
}
