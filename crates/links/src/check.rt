// The F check of a link, and what follows it (001, Figure 2, lines 4 to 10).
ghost use Rattle.std.specs.Prelude.{◌≡◌};
ghost use Rattle.fractions.specs.Fraction.{Sized, max_rate};
ghost use Rattle.links.specs.FCheck.{check_of, checked_of, higher_of, highest_of, process_of, turn_of};
ghost use Rattle.links.specs.Links.{Rates, Workable};

use super::sums::{above_b, at_least_b, bottleneck_rate};
use super::{Checked, Place, Processed, is_idle, those, waiting, with_words};
use fractions::Rate;

// The higher of two rates.
fn higher(a: Rate, b: Rate) -> Rate
    requires { Sized max_rate a × Sized max_rate b }
    ensures { result ≡ higher_of a b }
{
    if a.le(b) { b } else { a }
}

// The highest rate of F.
fn highest(p: Place) -> Rate
    requires { Rates p.entries }
    ensures { result ≡ highest_of p }
{
    let mut m = Rate::ZERO;
    for s in sessions::each(p.link.f) {
        m = higher(m, p.entries[s as usize].rate);
    }
    m
}

// One turn of the F check: the members of F with the highest rate return to R.
fn turned(p: Place) -> Place
    requires { Rates p.entries }
    ensures { result ≡ turn_of p }
{
    let m = highest(p);
    let back = those(p, p.link.f, |x| x.rate.same(m));
    let rest = those(p, p.link.f, |x| !x.rate.same(m));
    with_words(p, p.link.r | back, rest)
}

// The F check: members of F with a rate of at least B return to R, the highest first, B worked out anew each time.
pub fn check_f(p: Place) -> Checked
    requires { Workable p }
    ensures { result ≡ checked_of (check_of 32 p) }
{
    let mut now = p;
    for k in 0..32usize {
        let b = bottleneck_rate(now);
        let back = those(now, now.link.f, |x| at_least_b(b, x.rate));
        if back == 0 {
            return Checked {
                place: now,
                bound: b,
            };
        }
        now = turned(now);
    }
    let last = bottleneck_rate(now);
    Checked {
        place: now,
        bound: last,
    }
}

// ProcessNewRestricted: the F check, and then the idle members of R above B are to be updated.
pub fn process_new_restricted(p: Place) -> Processed
    requires { Workable p }
    ensures { result ≡ process_of p }
{
    let q = check_f(p);
    let left = q.place;
    let b = q.bound;
    let over = those(left, left.link.r, |x| is_idle(x.mu) && above_b(b, x.rate));
    let next = waiting(left, over);
    Processed {
        place: next,
        to: over,
        bound: b,
    }
}
