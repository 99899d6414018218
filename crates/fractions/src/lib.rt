// Rates as exact fractions: a numerator and a denominator in lowest terms, compared by their cross products (01, "Fractions").
#![tactic(auto)]

ghost use Rattle.std.specs.Prelude.{◌≡◌, Some, ℕ, ◌*◌, ◌≤◌, ◌<◌};
ghost use Rattle.fractions.specs.Divisor.{IsGcd, OddPart};
ghost use Rattle.fractions.specs.Fraction.{Sized, limit, max_den, max_rate, is_rate_of, kept_of, sized_of, le_of, lt_of, same_of, whole_of, lowest_of, fine_of, plus_of, left_of, among_of, rate_text, share_of, within_limit, answer_said};

use std::fmt;

// A rate in kbit/s. That it is one (`Sized`, or `Within`) is a clause and no invariant of the type: a record or a caller hands in any two numbers, which
// `is_rate` tests.
#[derive(Clone, Copy)]
pub struct Rate {
    pub num: u64,
    pub den: u64,
}

// A part of a link's capacity, as a fraction that need not be in lowest terms.
#[derive(Clone, Copy)]
pub struct Part {
    pub num: u64,
    pub den: u64,
}

// Why a sum or a share is no rate: its denominator is over the limit (01, refusal 12).
#[derive(Clone, Copy, Debug, PartialEq, Eq)]
pub struct TooFine;

// What is left of x without its factors of two.
fn odd_part(x: u64) -> u64
    requires { 0 < x }
    ensures { OddPart x result }
{
    let twos = u64::trailing_zeros(x);
    x >> twos
}

// The greatest common divisor, by a loop that strips factors of two by counting trailing zeros, then subtracts (02, §4).
// The factors of two that both have are put back at the end. x ^ y has as many trailing zeros as the difference of x and y and is there
// sooner. Beside 1 there is nothing more to find.
pub fn gcd(a: u64, b: u64) -> u64
    ensures { IsGcd a b result }
{
    if a == 0 {
        return b;
    }
    if b == 0 {
        return a;
    }
    let twos = u64::trailing_zeros(a | b);
    let mut x = odd_part(a);
    let mut y = odd_part(b);
    while x != y && y != 1 {
        let zeros = u64::trailing_zeros(x ^ y);
        if x < y {
            let rest = y - x;
            y = x;
            x = rest >> zeros;
        } else {
            let rest = x - y;
            x = rest >> zeros;
        }
    }
    y << twos
}

impl Rate {
    // 0/1.
    pub const ZERO: Rate = Rate { num: 0, den: 1 };

    // The largest denominator.
    pub const MAX_DEN: u64 = 1_048_576;

    // The largest value.
    pub const MAX: u64 = 1_000_000;

    // A whole number of kbit/s.
    pub fn whole(n: u64) -> Rate
        ensures { result ≡ whole_of n }
    {
        Rate { num: n, den: 1 }
    }

    // n / d in lowest terms.
    pub fn lowest(n: u64, d: u64) -> Rate
        requires { 0 < d }
        ensures { result ≡ lowest_of n d }
    {
        let g = gcd(n, d);
        Rate {
            num: n / g,
            den: d / g,
        }
    }

    // Whether the denominator is within its limit and above zero, and the value within its own. Lowest terms are not looked at.
    fn is_sized(self) -> bool
        ensures { result ≡ sized_of self.num self.den }
    {
        0 < self.den && self.den <= Rate::MAX_DEN && self.num <= Rate::MAX * self.den
    }

    // Whether a rate that was handed in is one: within its range and in lowest terms.
    pub fn is_rate(self) -> bool
        ensures { result ≡ is_rate_of self }
    {
        self.is_sized() && gcd(self.num, self.den) == 1
    }

    // The rate that is kept as two numbers, or 0/1 where they are none within the limits. Lowest terms are not looked at.
    pub fn kept(n: u64, d: u64) -> Rate
        ensures { result ≡ kept_of n d }
    {
        let x = Rate { num: n, den: d };
        if x.is_sized() { x } else { Rate::ZERO }
    }

    // The numerators of both over one denominator, the product of their own: they compare as the rates do.
    fn cross(self, b: Rate) -> (u64, u64)
        requires { Sized limit self × Sized limit b }
        ensures left { result.0 ≡ self.num * b.den }
        ensures right { result.1 ≡ b.num * self.den }
    {
        (self.num * b.den, b.num * self.den)
    }

    // No greater than b. Not an impl of PartialOrd, nor `same` one of PartialEq: their laws are of every pair of numbers, and x/0 has none.
    pub fn le(self, b: Rate) -> bool
        requires { Sized limit self × Sized limit b }
        ensures { result ≡ le_of self b }
    {
        let (left, right) = self.cross(b);
        left <= right
    }

    // Less than b.
    pub fn lt(self, b: Rate) -> bool
        requires { Sized limit self × Sized limit b }
        ensures { result ≡ lt_of self b }
    {
        let (left, right) = self.cross(b);
        left < right
    }

    // Equal to b.
    pub fn same(self, b: Rate) -> bool
        requires { Sized limit self × Sized limit b }
        ensures { result ≡ same_of self b }
    {
        let (left, right) = self.cross(b);
        left == right
    }

    // Whether the denominator is within the limit.
    pub fn is_fine(self) -> bool
        ensures { result ≡ fine_of self }
    {
        self.den <= Rate::MAX_DEN
    }

    // The rate, if its denominator is within the limit.
    fn within_limit(self) -> Result<Rate, TooFine>
        ensures { result ≡ within_limit self }
    {
        if self.is_fine() {
            Ok(self)
        } else {
            Err(TooFine)
        }
    }

    // The sum with b.
    pub fn plus(self, b: Rate) -> Result<Rate, TooFine>
        requires { Sized limit self × Sized limit b }
        ensures exact { result ≡ plus_of self b }
        ensures said { answer_said result ≡ answer_said (plus_of self b) }
    {
        let (left, right) = self.cross(b);
        let sum = Rate::lowest(left + right, self.den * b.den);
        sum.within_limit()
    }

    // A link's share: what is left of its capacity when what is taken is gone, for each of count sessions.
    pub fn share(capacity: u64, taken: Rate, count: u64) -> Result<Rate, TooFine>
        requires { Sized max_rate taken × (capacity ≤ max_rate) × (taken.num ≤ capacity * taken.den) × (0 < count) × (count ≤ 32) }
        ensures exact { result ≡ share_of capacity taken count }
        ensures said { answer_said result ≡ answer_said (share_of capacity taken count) }
    {
        let each = Part::left(capacity, taken).among(count);
        let share = Rate::lowest(each.num, each.den);
        share.within_limit()
    }
}

// num/den.
impl fmt::Display for Rate {
    ghost output = { λ x. Some (rate_text x) };

    fn fmt<W: fmt::Write>(&self, f: &mut fmt::Formatter<W>) -> fmt::Result {
        write!(f, "{}/{}", self.num, self.den)
    }
}

impl Part {
    // What is left of a capacity.
    pub fn left(capacity: u64, taken: Rate) -> Part
        requires { (taken.num ≤ capacity * taken.den) × (taken.den ≤ max_den) × (capacity ≤ max_rate) }
        ensures { result ≡ left_of capacity taken }
    {
        Part {
            num: capacity * taken.den - taken.num,
            den: taken.den,
        }
    }

    // What each of count sessions gets of it.
    pub fn among(self, count: u64) -> Part
        requires { (self.den ≤ max_den) × (count ≤ 32) }
        ensures { result ≡ among_of self count }
    {
        Part {
            num: self.num,
            den: self.den * count,
        }
    }
}
