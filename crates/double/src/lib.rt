// Document 02, item 7: doubles. A number is its 64-bit pattern; an f64 is made only of a pattern that is no NaN's.
#![tactic(auto)]

ghost use Rattle.std.specs.Prelude.{◌≡◌, ◌*◌, ◌^◌, ◌<◌, ◌≤◌, ◌||◌, pos, if◌then◌else◌};
ghost use Rattle.std.specs.Float.Ieee.{nan_bits, to_unsigned, of_int};
ghost use Rattle.std.specs.Float.{binary32, binary64};
ghost use Rattle.double.specs.Numbers.{numbers_of};
ghost use Rattle.double.specs.Arithmetic.{value_of, pattern_of, sum_of, difference_of, product_of, quotient_of, absolute_of};
ghost use Rattle.double.specs.Comparison.{equals, less, at_least};
ghost use Rattle.double.specs.Single.{double_of};
ghost use Rattle.double.specs.Whole.{of_signed, of_unsigned, cut_signed, cut_unsigned, floor_of, ceiling_of};
ghost use Rattle.double.specs.NextWhole.{next_whole};

// The NaN of every result.
pub const NAN: u64 = 0x7FF8_0000_0000_0000;

// The sign's bit; what is below it is the magnitude.
const SIGN: u64 = 0x8000_0000_0000_0000;

// The pattern of 2^52: from there on a magnitude has no fraction. Infinity and NaN are above it too.
const TWO_52: u64 = 0x4330_0000_0000_0000;

// ---- patterns

// Whether a pattern is a NaN's: its magnitude is above infinity's. Not by the library's method: a pattern is tested before an f64 is made of it.
fn is_nan(x: u64) -> bool
    ensures { result ≡ nan_bits binary64 x }
{
    0x7FF0_0000_0000_0000 < x % SIGN
}

// The same of a single; by its pattern too, before an f32 is made.
fn is_nan_single(w: u32) -> bool
    ensures { result ≡ nan_bits binary32 w }
{
    0x7F80_0000 < w % 0x8000_0000
}

// The values of two patterns, if neither is a NaN's.
fn numbers(x: u64, y: u64) -> Option<(f64, f64)>
    ensures { result ≡ numbers_of x y }
{
    if is_nan(x) || is_nan(y) {
        return None;
    }
    Some((f64::from_bits(x), f64::from_bits(y)))
}

// The pattern of a value; one pattern for every NaN.
fn bits(v: f64) -> u64
    ensures { result ≡ pattern_of v }
{
    if v != v { NAN } else { f64::to_bits(v) }
}

// A pattern, or NAN for every NaN's.
fn canonical(x: u64) -> u64
    ensures { result ≡ pattern_of (value_of x) }
{
    if is_nan(x) { NAN } else { x }
}

// ---- arithmetic

// ADDF
pub fn add(x: u64, y: u64) -> u64
    ensures { result ≡ sum_of x y }
{
    numbers(x, y).map_or(NAN, |(v, w)| bits(v + w))
}

// SUBF
pub fn sub(x: u64, y: u64) -> u64
    ensures { result ≡ difference_of x y }
{
    numbers(x, y).map_or(NAN, |(v, w)| bits(v - w))
}

// MULF
pub fn mul(x: u64, y: u64) -> u64
    ensures { result ≡ product_of x y }
{
    numbers(x, y).map_or(NAN, |(v, w)| bits(v * w))
}

// DIVF: by zero too, an infinity, or the NaN of 0 by 0.
pub fn div(x: u64, y: u64) -> u64
    ensures { result ≡ quotient_of x y }
{
    numbers(x, y).map_or(NAN, |(v, w)| bits(v / w))
}

// FABS: the sign is dropped; a NaN gives NAN.
pub fn absolute(x: u64) -> u64
    ensures { result ≡ absolute_of x }
{
    canonical(x % SIGN)
}

// ---- comparisons: false where one is a NaN

// EQF; NEF is its negation.
pub fn equal(x: u64, y: u64) -> bool
    ensures { result ≡ equals x y }
{
    numbers(x, y).is_some_and(|(v, w)| v == w)
}

// LTF
pub fn less(x: u64, y: u64) -> bool
    ensures { result ≡ less x y }
{
    numbers(x, y).is_some_and(|(v, w)| v < w)
}

// GEF: false of a NaN, so not the negation of LTF.
pub fn at_least(x: u64, y: u64) -> bool
    ensures { result ≡ at_least x y }
{
    numbers(x, y).is_some_and(|(v, w)| v >= w)
}

// ---- singles

// A single's pattern, widened exactly.
pub fn widen(w: u32) -> u64
    ensures { result ≡ double_of w }
{
    if is_nan_single(w) {
        return NAN;
    }
    f64::to_bits(f32::from_bits(w) as f64)
}

// ---- whole numbers

// The pattern of a whole number up to 2^53: a double holds each of them.
fn of_whole(n: u64) -> u64
    requires { n ≤ 2 ^ 53 }
    ensures { result ≡ pattern_of (of_int binary64 (pos n)) }
{
    f64::to_bits(n as f64)
}

// CID: a double holds every signed word.
pub fn of_signed(a: u32) -> u64
    ensures { result ≡ of_signed a }
{
    f64::to_bits(a.cast_signed() as f64)
}

// CUD: and every unsigned one.
pub fn of_unsigned(a: u32) -> u64
    ensures { result ≡ of_unsigned a }
{
    f64::to_bits(a as f64)
}

// The whole part of a magnitude below 2^52.
fn whole(m: u64) -> u64
    requires { m < 1075 * 2 ^ 52 }
    ensures { result ≡ to_unsigned 64 (value_of m) }
{
    std::num::truncating_f64_to_u64(f64::from_bits(m))
}

// What a cut number's magnitude must be below, by its sign.
fn limit(minus: bool, negative: u64, positive: u64) -> u64
    ensures { result ≡ (if minus then negative else positive) }
{
    if minus { negative } else { positive }
}

// CDI and CDU differ in limits, word and rule: one function for both would be as long, with each as a parameter.

// CDI: the number is cut first and judged then, so that -2^31 - 0.9 fits.
pub fn cut_signed(x: u64) -> Option<u32>
    ensures { result ≡ cut_signed (value_of x) }
{
    let m = x % SIGN;
    if TWO_52 <= m {
        return None;
    }
    let n = whole(m);
    if limit(x >= SIGN, 0x8000_0001, 0x8000_0000) <= n {
        return None;
    }
    Some(word::with_sign(x >= SIGN, n as u32))
}

// CDU: likewise -0.9 fits, and gives 0.
pub fn cut_unsigned(x: u64) -> Option<u32>
    ensures { result ≡ cut_unsigned (value_of x) }
{
    let m = x % SIGN;
    if TWO_52 <= m {
        return None;
    }
    let n = whole(m);
    if limit(x >= SIGN, 1, 0x1_0000_0000) <= n {
        return None;
    }
    Some(n as u32)
}

// The whole number at x or next to it: away from zero where `away`, else toward it. Its sign is x's, of a zero too.
fn next_whole(x: u64, away: bool) -> u64
    ensures { result ≡ pattern_of (next_whole away (value_of x)) }
{
    let m = x % SIGN;
    if TWO_52 <= m {
        return canonical(x);
    }
    let n = whole(m);
    let up = away & (of_whole(n) != m);
    x - m + of_whole(n + up as u64)
}

// FLOR: away from zero where x is negative.
pub fn floor(x: u64) -> u64
    ensures { result ≡ floor_of x }
{
    next_whole(x, x >= SIGN)
}

// CEIL: away from zero where it is not.
pub fn ceiling(x: u64) -> u64
    ensures { result ≡ ceiling_of x }
{
    next_whole(x, x < SIGN)
}
