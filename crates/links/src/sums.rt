// The sum of F and the rate B of a link (001, section III.C), and how a rate compares with B. Where R is empty, B is above every rate (01, "Added here").
ghost use Rattle.std.specs.Prelude.{◌≡◌, ◌≤◌};
ghost use Rattle.fractions.specs.Fraction.{Sized, limit, max_rate};
ghost use Rattle.links.specs.Links.{B, BoundSized, TotalSized, Workable, above_b, as_bound, at_least_b, at_most_b, below_b, bound_of, bound_said, equals_b, is_fine, is_past_c, more_of, sum_of, total_said, upto_of};

use super::{Bound, NoTotal, Place};
use fractions::{Rate, TooFine};

// A sum at a link of this capacity.
fn up_to(capacity: u64, sum: Rate) -> Result<Rate, NoTotal>
    requires { (capacity ≤ max_rate) × Sized limit sum }
    ensures { result ≡ upto_of capacity (Ok sum) }
{
    if sum.le(Rate::whole(capacity)) {
        Ok(sum)
    } else {
        Err(NoTotal::PastC)
    }
}

// A total with one rate more.
pub fn more(capacity: u64, total: Result<Rate, NoTotal>, x: Rate) -> Result<Rate, NoTotal>
    requires { (capacity ≤ max_rate) × TotalSized capacity total × Sized max_rate x }
    ensures exact { result ≡ more_of capacity total x }
    ensures said { total_said result ≡ total_said (more_of capacity total x) }
{
    up_to(capacity, total?.plus(x)?)
}

// The sum of F, by rising session number.
pub fn sum_of_f(p: Place) -> Result<Rate, NoTotal>
    requires { Workable p }
    ensures exact { result ≡ sum_of p }
    ensures said { total_said result ≡ total_said (sum_of p) }
{
    let capacity = p.link.capacity;
    let mut total = Ok(Rate::ZERO);
    for s in sessions::each(p.link.f) {
        total = more(capacity, total, p.entries[s as usize].rate);
    }
    total
}

// Whether it is past the capacity.
pub fn is_past_c(total: Result<Rate, NoTotal>) -> bool
    ensures { result ≡ is_past_c total }
{
    matches!(total, Err(NoTotal::PastC))
}

// A link's share as its B.
impl From<Result<Rate, TooFine>> for Bound {
    ghost from_gives = { λ share b. b ≡ as_bound share };

    fn from(share: Result<Rate, TooFine>) -> Bound {
        match share {
            Ok(b) => Bound::At(b),
            Err(TooFine) => Bound::TooFine,
        }
    }
}

// B of a link of this capacity with so many members of R, whose F comes to a total.
pub fn bound_from(capacity: u64, count: u32, total: Result<Rate, NoTotal>) -> Bound
    requires { (capacity ≤ max_rate) × (count ≤ 32) × TotalSized capacity total }
    ensures exact { result ≡ bound_of capacity count total }
    ensures said { bound_said result ≡ bound_said (bound_of capacity count total) }
{
    match total {
        Err(NoTotal::TooFine) => Bound::TooFine,
        _ if count == 0 => Bound::Above,
        Ok(y) => Bound::from(Rate::share(capacity, y, count as u64)),
        Err(NoTotal::PastC) => Bound::At(Rate::ZERO),
    }
}

// The rate B that this link can give each session of R.
pub fn bottleneck_rate(p: Place) -> Bound
    requires { Workable p }
    ensures exact { result ≡ B p }
    ensures said { bound_said result ≡ bound_said (B p) }
{
    let total = sum_of_f(p);
    bound_from(p.link.capacity, sessions::size(p.link.r), total)
}

// Whether neither a partial sum nor B is over the limit.
pub fn is_fine(b: Bound) -> bool
    ensures { result ≡ is_fine b }
{
    !matches!(b, Bound::TooFine)
}

// x > B.
pub fn above_b(b: Bound, x: Rate) -> bool
    requires { BoundSized b × Sized max_rate x }
    ensures { result ≡ above_b b x }
{
    matches!(b, Bound::At(y) if y.lt(x))
}

// x ≥ B.
pub fn at_least_b(b: Bound, x: Rate) -> bool
    requires { BoundSized b × Sized max_rate x }
    ensures { result ≡ at_least_b b x }
{
    matches!(b, Bound::At(y) if y.le(x))
}

// x = B.
pub fn equals_b(b: Bound, x: Rate) -> bool
    requires { BoundSized b × Sized max_rate x }
    ensures { result ≡ equals_b b x }
{
    matches!(b, Bound::At(y) if x.same(y))
}

// x < B.
pub fn below_b(b: Bound, x: Rate) -> bool
    requires { BoundSized b × Sized max_rate x }
    ensures { result ≡ below_b b x }
{
    match b {
        Bound::At(y) => x.lt(y),
        Bound::Above => true,
        Bound::TooFine => false,
    }
}

// x ≤ B.
pub fn at_most_b(b: Bound, x: Rate) -> bool
    requires { BoundSized b × Sized max_rate x }
    ensures { result ≡ at_most_b b x }
{
    match b {
        Bound::At(y) => x.le(y),
        Bound::Above => true,
        Bound::TooFine => false,
    }
}
