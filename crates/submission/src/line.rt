ghost use Rattle.std.specs.Prelude.{◌≡◌, Decides};
ghost use Rattle.submission.specs.Words.{words_of, line_of, Fits};

use crate::words::{Kind, PAYLOADS, amount, halves, payload};

// Both nodes of a line share a payload.
const NODES: u32 = 1 << 14;

// So do both months.
const MONTHS: u32 = 1 << 4;

// An amount has two payloads.
const AMOUNTS: u64 = 1 << 56;

// One line of a submission: a right that a holder offers to buy.
#[derive(Clone, Copy, Debug, PartialEq, Eq)]
pub struct Line {
    pub holder: u32,
    // The node where power is injected, and the node where it is withdrawn.
    pub injection: u32,
    pub withdrawal: u32,
    // The first and the last valid month.
    pub first: u32,
    pub last: u32,
    // In kilowatts.
    pub power: u32,
    // In cents.
    pub offer: u64,
    pub charge: u64,
}

impl Line {
    // Whether each field fits its part of a payload.
    pub(crate) fn fits(&self) -> bool
        ensures { Decides result (Fits self.now) }
    {
        self.holder < PAYLOADS
            && self.injection < NODES
            && self.withdrawal < NODES
            && self.first < PAYLOADS / MONTHS
            && self.last < MONTHS
            && self.power < PAYLOADS
            && self.offer < AMOUNTS
            && self.charge < AMOUNTS
    }

    // The eight words of a line that fits.
    pub(crate) fn words(&self) -> [u32; 8]
        requires { Fits self.now }
        ensures { result ≡ words_of self.now }
    {
        let (offer_high, offer_low) = halves(self.offer);
        let (charge_high, charge_low) = halves(self.charge);
        [
            Kind::Holder.word(self.holder),
            Kind::Nodes.word(self.injection * NODES + self.withdrawal),
            Kind::Months.word(self.first * MONTHS + self.last),
            Kind::Power.word(self.power),
            Kind::OfferHigh.word(offer_high),
            Kind::OfferLow.word(offer_low),
            Kind::ChargeHigh.word(charge_high),
            Kind::ChargeLow.word(charge_low),
        ]
    }
}

// The line that eight words stand for.
impl From<[u32; 8]> for Line {
    ghost from_gives = { λ words line. line ≡ line_of words };

    fn from(words: [u32; 8]) -> Line {
        let [
            holder,
            nodes,
            months,
            power,
            offer_high,
            offer_low,
            charge_high,
            charge_low,
        ] = words;
        let nodes = payload(nodes);
        let months = payload(months);
        Line {
            holder: payload(holder),
            injection: nodes / NODES,
            withdrawal: nodes % NODES,
            first: months / MONTHS,
            last: months % MONTHS,
            power: payload(power),
            offer: amount(payload(offer_high), payload(offer_low)),
            charge: amount(payload(charge_high), payload(charge_low)),
        }
    }
}
