ghost use Rattle.std.specs.Prelude.{ℕ, ◌≡◌, ◌+◌, ◌*◌, ◌^◌, ◌<◌, ◌≤◌};
ghost use Rattle.sat_order.specs.Luby.{IsLuby};

/// The greatest power of two that isn't greater than the number.
fn greatest_power(number: u64) -> u64
    requires { 0 < number }
    ensures low { result ≤ number }
    ensures high { number < 2 * result }
    ensures power { (k : ℕ) × (result ≡ 2 ^ k) }
{
    let mut power = 1;
    while power <= number / 2 {
        power *= 2;
    }
    power
}

/// The `i`-th number of 1, 1, 2, 1, 1, 2, 4, 1, 1, 2, 1, 1, 2, 4, 8, .., counted from 1.
pub fn luby(i: u64) -> u64
    requires { 0 < i }
    ensures { IsLuby i result }
{
    let mut rest = i;
    'runs: loop {
        let power = greatest_power(rest);
        if rest - power == power - 1 {
            return power;
        }
        rest = rest - power + 1;
    }
}
