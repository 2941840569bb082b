// Decimal text: optional minus, digits, optionally a point and digits; its exact value is at most 79228162514264337593543950335 either way.
// The value is kept in two limbs, so no number here has more than 64 bits.
#![tactic(auto)]

ghost use Rattle.std.specs.Prelude.{◌≡◌, ◌≤◌};
ghost use Rattle.format.specs.Values.{refused, whole_digit, fraction_digit, digit, decimal_byte, decimal};
ghost use Rattle.decimal.specs.Limbs.{Fine, Stands, read};

// What has been read. phase: 0 nothing, 1 the minus, 2 the whole part, 3 the point, 4 the fraction, 5 refused.
// The value of the whole part is hi * 10^15 + lo.
#[derive(Clone, Copy)]
pub struct Limbs {
    pub phase: u8,
    pub hi: u64,
    pub lo: u64,
}

fn refuse() -> Limbs
    ensures { Stands result refused }
{
    Limbs {
        phase: 5,
        hi: 0,
        lo: 0,
    }
}

// After a digit of the whole part: refused where the value leaves the range.
fn whole_digit(st: Limbs, d: u8) -> Limbs
    requires fine { Fine st }
    requires d_bound { d ≤ 9 }
    ensures { Stands result (whole_digit (read st) d) }
{
    let low = 10 * st.lo + (d as u64);
    let hi = 10 * st.hi + low / 1000000000000000;
    let lo = low % 1000000000000000;
    if 79228162514264 < hi || hi == 79228162514264 && 337593543950335 < lo {
        return refuse();
    }
    Limbs { phase: 2, hi, lo }
}

// After a digit of the fraction: where the whole part is the greatest, only 0 stays within the range.
fn fraction_digit(st: Limbs, d: u8) -> Limbs
    requires { Fine st }
    ensures { Stands result (fraction_digit (read st) d) }
{
    if d != 0 && st.hi == 79228162514264 && st.lo == 337593543950335 {
        return refuse();
    }
    Limbs { phase: 4, ..st }
}

// After a digit. What is refused stays refused.
fn any_digit(st: Limbs, d: u8) -> Limbs
    requires fine { Fine st }
    requires d_bound { d ≤ 9 }
    ensures { Stands result (digit (read st) d) }
{
    match st.phase {
        0..=2 => whole_digit(st, d),
        3..=4 => fraction_digit(st, d),
        _ => refuse(),
    }
}

// After any byte. A minus stands only first, a point only after a digit of the whole part.
fn any_byte(st: Limbs, b: u8) -> Limbs
    requires { Fine st }
    ensures { Stands result (decimal_byte (read st) b) }
{
    match b {
        b'0'..=b'9' => any_digit(st, b - b'0'),
        b'-' if st.phase == 0 => Limbs {
            phase: 1,
            hi: 0,
            lo: 0,
        },
        b'.' if st.phase == 2 => Limbs { phase: 3, ..st },
        _ => refuse(),
    }
}

// Whether all of s is Decimal text. It ends in the whole part or in the fraction, so no text, a lone minus and a last point are none.
pub fn is_decimal(s: &[u8]) -> bool
    ensures { result ≡ decimal s.now }
{
    let mut st = Limbs {
        phase: 0,
        hi: 0,
        lo: 0,
    };
    for &b in s {
        st = any_byte(st, b);
    }
    st.phase == 2 || st.phase == 4
}
