// The sum of F and the rate B of a link of a lent table (001, section III.C), read entry by entry: of the 32 entries of a link only those of F are
// looked at.
#![tactic(auto)]

ghost use Rattle.std.specs.Prelude.{◌≡◌, ◌≤◌, ◌<◌};
ghost use Rattle.fractions.specs.Fraction.{max_rate};
ghost use Rattle.links.specs.Links.{TotalSized, bound_of, is_fine, sum_of, total_said};
ghost use Rattle.table.specs.Words.{place_of};

use fractions::Rate;
use links::NoTotal;

// The sum of F of link e, by rising session number.
pub fn sum_at(t: &[u64; 9153], e: usize) -> Result<Rate, NoTotal>
    requires { e < 64 }
    ensures exact { result ≡ sum_of (place_of t.now e) }
    ensures said { total_said result ≡ total_said (sum_of (place_of t.now e)) }
{
    let l = table::link_at(t, e);
    let capacity = l.capacity;
    let mut total = Ok(Rate::ZERO);
    for s in sessions::each(l.f) {
        let x = table::entry_in(t, e, s as usize);
        total = links::more(capacity, total, x.rate);
    }
    total
}

// Whether B is within refusal 12 at a link of this capacity with so many members of R, whose F comes to a total. A share whose denominator is
// within the limit before it is put into lowest terms is so afterwards.
pub fn is_bound_fine(capacity: u64, count: u32, total: Result<Rate, NoTotal>) -> bool
    requires { (capacity ≤ max_rate) × (count ≤ 32) × TotalSized capacity total }
    ensures { result ≡ is_fine (bound_of capacity count total) }
{
    match total {
        Ok(y) => {
            y.den * (count as u64) <= Rate::MAX_DEN
                || links::is_fine(links::bound_from(capacity, count, total))
        }
        Err(e) => e == NoTotal::PastC,
    }
}
