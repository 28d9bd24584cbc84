ghost use Rattle.std.specs.Prelude.{◌≡◌};
ghost use Rattle.money.specs.Guarantees.{fraction, guarantee as guarantee_due, LeastCover};

// What a right from the first month to the last holds of its offer: a fifth for one month, a tenth for more, rounded up.
pub fn guarantee(offer: u64, first: u32, last: u32) -> u64
    ensures value { result ≡ guarantee_due offer first last }
    ensures least { LeastCover (fraction first last) offer result }
{
    let parts = if first < last { 10 } else { 5 };
    offer.div_ceil(parts)
}
