ghost use Rattle.std.specs.Prelude.{◌≡◌, ◌+◌, ◌*◌, ◌/◌, ◌%◌, ◌^◌, ◌<◌, Decides};
ghost use Rattle.submission.specs.Words.{word as word_of, kind as kind_of, payload as payload_of, kind_number};

// The payload of a word has 28 bits.
pub(crate) const PAYLOADS: u32 = 1 << 28;

// What a word says: its top four bits.
#[derive(Clone, Copy)]
pub(crate) enum Kind {
    // How many lines follow.
    Opening = 1,
    Holder = 2,
    // Injection node × 16,384 + withdrawal node.
    Nodes = 3,
    // First month × 16 + last month.
    Months = 4,
    Power = 5,
    // The high and the low 28 bits of an amount.
    OfferHigh = 6,
    OfferLow = 7,
    ChargeHigh = 8,
    ChargeLow = 9,
    // How many words stand before it.
    Closing = 15,
}

impl From<Kind> for u32 {
    ghost from_gives = { λ kind number. (number ≡ kind_number kind) × (number < 16) };

    fn from(kind: Kind) -> u32 {
        kind as u32
    }
}

impl Kind {
    // Whether a word is of this kind.
    pub(crate) fn is_of(self, word: u32) -> bool
        ensures { Decides result (kind_of word ≡ kind_number self) }
    {
        word / PAYLOADS == u32::from(self)
    }

    // The word of this kind with a payload.
    pub(crate) fn word(self, payload: u32) -> u32
        requires { payload < 2 ^ 28 }
        ensures { result ≡ word_of (kind_number self) payload }
    {
        u32::from(self) * PAYLOADS + payload
    }
}

pub(crate) fn payload(word: u32) -> u32
    ensures { result ≡ payload_of word }
{
    word % PAYLOADS
}

// The amount of a high and a low half of 28 bits.
pub(crate) fn amount(high: u32, low: u32) -> u64
    ensures { result ≡ high * 2 ^ 28 + low }
{
    u64::from(high) * u64::from(PAYLOADS) + u64::from(low)
}

// The high and the low half of an amount.
pub(crate) fn halves(amount: u64) -> (u32, u32)
    requires { amount < 2 ^ 56 }
    ensures high { result.0 ≡ amount / 2 ^ 28 }
    ensures low { result.1 ≡ amount % 2 ^ 28 }
{
    let payloads = u64::from(PAYLOADS);
    ((amount / payloads) as u32, (amount % payloads) as u32)
}
