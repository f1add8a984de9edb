// Square root, absolute value and maximum of doubles, by their bits. Each call takes every double.
#![tactic(auto)]

ghost use Rattle.std.specs.Prelude.{◌≡◌, ◌+◌, ◌*◌, ◌^◌, ◌<◌, ◌≤◌};
ghost use Rattle.roots.specs.Root.{SquareRoot, isqrt, round_root, root_at, root_of, sqrt_of};
ghost use Rattle.roots.specs.Absolute.{abs_of};
ghost use Rattle.roots.specs.Maximum.{max_of};

// The bits below the sign.
const MAGNITUDE: u64 = 0x7fff_ffff_ffff_ffff;
// The exponent's 11 bits, shifted down: all set in an infinity or a NaN.
const EXPONENT: u64 = 0x7ff;
// The fraction's 52 bits.
const FRACTION: u64 = 0xf_ffff_ffff_ffff;
// A normal number's leading binary digit, which the bits leave out.
const LEADING: u64 = 0x10_0000_0000_0000;

// The square root of x, rounded to the nearest double. Both zeros return themselves, negatives and NaN give NaN, +infinity itself.
pub fn sqrt(x: f64) -> f64
    ensures { (result ≡ sqrt_of x) × SquareRoot x result }
{
    if x.is_nan() {
        return x;
    }
    let bits = x.to_bits();
    let sign = bits >> 63;
    let exponent = (bits >> 52) & EXPONENT;
    let fraction = bits & FRACTION;
    // Both zeros.
    if exponent + fraction == 0 {
        return x;
    }
    let negative = sign == 1;
    if negative {
        return 0.0 / 0.0;
    }
    // +infinity.
    if exponent == EXPONENT {
        return x;
    }
    root_of(exponent, fraction)
}

// The absolute value of x: the sign's bit is cleared. NaN stays NaN.
pub fn abs(x: f64) -> f64
    ensures { result ≡ abs_of x }
{
    if x.is_nan() {
        return x;
    }
    f64::from_bits(x.to_bits() & MAGNITUDE)
}

// The greater of a and b. Beside a NaN the other one; of two zeros +0.0, unless both are -0.0.
pub fn max(a: f64, b: f64) -> f64
    ensures { result ≡ max_of a b }
{
    let less = a < b;
    if less || a.is_nan() {
        return b;
    }
    if a == b && a.is_sign_negative() {
        return b;
    }
    a
}

// The root of the double above zero with this exponent and this fraction: a * 2 ^ (exponent - 1) parts of 2 ^ -1074, a of 53 binary digits.
// A subnormal is brought up to them by its leading zeros first, beyond the 11 that every a has.
fn root_of(exponent: u64, fraction: u64) -> f64
    requires { (exponent < 2047) × (fraction < 2 ^ 52) × (0 < exponent + fraction) }
    ensures { result ≡ root_of exponent fraction }
{
    if exponent == 0 {
        let zeros = fraction.leading_zeros() as u64 - 11;
        root_at(fraction << zeros, 1022 - zeros)
    } else {
        root_at(fraction + LEADING, exponent + 1021)
    }
}

// The double of as many parts as the root of a * 2 ^ (52 + e): of a or 2 * a by the exponent's last bit, put together with half the exponent.
// The root's leading digit adds one to the exponent's field.
fn root_at(a: u64, e: u64) -> f64
    requires { (2 ^ 52 ≤ a) × (a < 2 ^ 53) × (e < 3068) }
    ensures { result ≡ root_at a e }
{
    let root = rounded_root(a << (e % 2));
    f64::from_bits(((e / 2) << 52) + root)
}

// The whole number nearest to the root of a * 4 ^ 26. There is no tie: the square of a half is no whole number.
fn rounded_root(a: u64) -> u64
    requires { (2 ^ 52 ≤ a) × (a < 2 ^ 54) }
    ensures { result ≡ round_root a }
{
    (long_root(a) + 1) / 2
}

// The whole part of the root of a * 4 ^ 27, one binary digit a turn: rest is what q's square leaves of the digits
// of a taken so far, two a turn, and left holds the others.
fn long_root(a: u64) -> u64
    requires { a < 2 ^ 54 }
    ensures { result ≡ isqrt 54 (a * 4 ^ 27) }
{
    let mut q = 0u64;
    let mut rest = 0u64;
    let mut left = a;
    for _ in 0..54u64 {
        let four = 4 * rest + (left >> 52);
        let odd = 4 * q + 1;
        left = (left & FRACTION) << 2;
        if odd <= four {
            rest = four - odd;
            q = 2 * q + 1;
        } else {
            rest = four;
            q = 2 * q;
        }
    }
    q
}
