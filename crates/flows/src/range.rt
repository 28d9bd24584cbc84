ghost use Rattle.std.specs.Prelude.{◌≡◌, pos, ◌≤ℤ◌};
ghost use Rattle.flows.specs.Factors.{kept};

// The value, if it lies from -most to most.
pub(crate) fn within(most: i32, value: i32) -> Option<i32>
    requires { pos 0 ≤ℤ most }
    ensures { result ≡ kept most value }
{
    (-most..=most).contains(&value).then_some(value)
}
