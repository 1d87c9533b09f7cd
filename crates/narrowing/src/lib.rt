// Document 02, item 7: a double "narrowed to nearest, ties to even". The single's pattern is computed in integers.
#![tactic(auto)]

ghost use Rattle.std.specs.Prelude.{◌≡◌, ◌<◌, ◌^◌};
ghost use Rattle.std.specs.Float.Ieee.Nearest.{closest};
ghost use Rattle.double.specs.Single.{single_of};

// n / 2^k as the nearest whole number, at a tie the even one.
fn nearest_even(n: u64, k: u64) -> u64
    requires { k < 64 }
    ensures { result ≡ closest n (2 ^ k) }
{
    let unit: u64 = 1 << k;
    let whole = n / unit;
    let twice = n % unit * 2;
    if twice < unit {
        return whole;
    }
    if unit < twice {
        return whole + 1;
    }
    whole + whole % 2
}

// A double's pattern, narrowed to the nearest single's, ties to even. Bits 52 to 62 are the exponent's field, with a bias of 1023 for a single's 127.
pub fn narrow(x: u64) -> u32
    ensures { result ≡ single_of x }
{
    let magnitude = x % 0x8000_0000_0000_0000;
    if 0x7FF0_0000_0000_0000 < magnitude {
        return 0x7FC0_0000;
    }
    let sign = x / 0x8000_0000_0000_0000 * 0x8000_0000;
    let field = magnitude / 0x10_0000_0000_0000;
    if 897 <= field {
        // A normal single: the field less 896, and 29 digits dropped. A carry out of the digits raises the field, and at the end makes infinity.
        let rounded = nearest_even(magnitude - 0x3800_0000_0000_0000, 29);
        return (sign + rounded.min(0x7F80_0000)) as u32;
    }
    if field < 873 {
        // Below half of the least single.
        return sign as u32;
    }
    // A subnormal single: the digits in units of 2^-149.
    let digits = 0x10_0000_0000_0000 + x % 0x10_0000_0000_0000;
    (sign + nearest_even(digits, 926 - field)) as u32
}
