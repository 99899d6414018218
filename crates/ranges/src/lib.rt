// 01, refusal 14: the words in use of a table that is handed in are within their ranges, and their rates in lowest terms; 02, §1: no maximum is above
// its access rate.
#![tactic(auto)]

ghost use Rattle.std.specs.Prelude.{◌&&◌, true, ◌≡◌, ◌≤◌, ◌<◌, eqb};
ghost use Rattle.fractions.specs.Fraction.{frac, is_rate_of};
ghost use Rattle.ranges.specs.Ranges.{count_fits, link_fits, entry_fits, standing_fits, flags_fit, numbers_fit, rates_fit, stops_fit, path_fits, source_fits, rated_fits, kind_fits, words_fit, packet_fits};

use fractions::Rate;

pub fn count_fits(t: &[u64; 9153]) -> bool
    ensures { result ≡ count_fits t.now }
{
    t[9152] <= 256
}

// A link's capacity, and the words of its R and F.
#[tactic(auto, unfolding(crate::specs::Ranges::link_fits))]
pub fn link_fits(t: &[u64; 9153], e: usize) -> bool
    requires { e < 64 }
    ensures { result ≡ link_fits t.now e }
{
    let a = e * 3;
    t[a] <= Rate::MAX && t[a + 1] <= u64::from(u32::MAX) && t[a + 2] <= u64::from(u32::MAX)
}

// Whether x is n / d as it stands: Rate has no `==`, since two rates are the same by their cross products (`same`).
fn is_pair(x: Rate, n: u64, d: u64) -> bool
    ensures { result ≡ (eqb n x.num && eqb d x.den) }
{
    n == x.num && d == x.den
}

// Whether two words are a rate, where x is one: words that are x's are not put to the test again.
fn is_rate_beside(x: Rate, n: u64, d: u64) -> bool
    requires { is_rate_of x ≡ true }
    ensures { result ≡ is_rate_of (frac n d) }
{
    is_pair(x, n, d) || Rate { num: n, den: d }.is_rate()
}

// The entry of session s at link e, where the source of session s fits.
#[tactic(auto, using(crate::proofs::FitsMeans::source_is_rate), unfolding(crate::specs::Ranges::entry_fits))]
pub fn entry_fits(t: &[u64; 9153], e: usize, s: usize) -> bool
    requires { (e < 64) × (s < 32) × (source_fits t.now s ≡ true) }
    ensures { result ≡ entry_fits t.now e s }
{
    let a = 192 + e * 96 + s * 3;
    let b = 6336 + s * 24 + 8;
    let rate = Rate {
        num: t[b],
        den: t[b + 1],
    };
    t[a] <= 2 && is_rate_beside(rate, t[a + 1], t[a + 2])
}

// Whether session s is active, and the length of its path.
#[tactic(auto, unfolding(crate::specs::Ranges::standing_fits))]
pub fn standing_fits(t: &[u64; 9153], s: usize) -> bool
    requires { s < 32 }
    ensures { result ≡ standing_fits t.now s }
{
    let a = 6336 + s * 24;
    t[a] <= 1 && t[a + 12] <= 8
}

#[tactic(auto, unfolding(crate::specs::Ranges::flags_fit))]
fn flags_fit(b: [u64; 8]) -> bool
    ensures { result ≡ flags_fit b }
{
    b[0] <= 1 && b[3] <= 1 && b[5] <= 1 && b[6] <= 1 && b[7] <= 1
}

#[tactic(auto, unfolding(crate::specs::Ranges::numbers_fit))]
fn numbers_fit(b: [u64; 8]) -> bool
    ensures { result ≡ numbers_fit b }
{
    0 < b[1]
        && b[1] <= Rate::MAX
        && b[2] <= Rate::MAX
        && !records::above_line(b[1], b[2])
        && b[4] <= 2
}

#[tactic(auto, unfolding(crate::specs::Ranges::rates_fit))]
fn rates_fit(told: u64, c: [u64; 8]) -> bool
    ensures { result ≡ rates_fit told c }
{
    let rate = Rate {
        num: c[0],
        den: c[1],
    };
    rate.is_rate() && (told != 1 || is_rate_beside(rate, c[2], c[3]))
}

fn stops_fit(t: &[u64; 9153], s: usize, n: usize) -> bool
    requires { (s < 32) × (n ≤ 8) }
    ensures { result ≡ stops_fit n t.now s 0 }
{
    let a = 6336 + s * 24 + 16;
    t[a..a + n].iter().all(|e| *e <= 63)
}

#[tactic(auto, unfolding(crate::specs::Ranges::path_fits))]
fn path_fits(t: &[u64; 9153], s: usize) -> bool
    requires { s < 32 }
    ensures { result ≡ path_fits t.now s }
{
    let n = t[6336 + s * 24 + 12];
    n <= 8 && stops_fit(t, s, n as usize)
}

// All that is kept of a session that has joined.
#[tactic(auto, unfolding(crate::specs::Ranges::source_fits))]
pub fn source_fits(t: &[u64; 9153], s: usize) -> bool
    requires { s < 32 }
    ensures { result ≡ source_fits t.now s }
{
    let a = 6336 + s * 24;
    let b = table::block_at(t, a);
    flags_fit(b)
        && numbers_fit(b)
        && rates_fit(t[a + 7], table::block_at(t, a + 8))
        && path_fits(t, s)
}

#[tactic(auto, unfolding(crate::specs::Ranges::rated_fits))]
fn rated_fits(b: [u64; 8]) -> bool
    ensures { result ≡ rated_fits b }
{
    let rate = Rate {
        num: b[4],
        den: b[5],
    };
    rate.is_rate() && b[6] <= 64
}

#[tactic(auto, unfolding(crate::specs::Ranges::kind_fits))]
fn kind_fits(b: [u64; 8]) -> bool
    ensures { result ≡ kind_fits b }
{
    match b[3] {
        0 | 1 => rated_fits(b),
        2 => b[7] <= 2 && rated_fits(b),
        5 => b[7] <= 1,
        code => code <= 6,
    }
}

#[tactic(auto, unfolding(crate::specs::Ranges::words_fit))]
fn words_fit(b: [u64; 8]) -> bool
    ensures { result ≡ words_fit b }
{
    b[0] <= 31 && b[1] <= 9 && b[2] <= 1 && kind_fits(b)
}

#[tactic(auto, unfolding(crate::specs::Ranges::packet_fits))]
pub fn packet_fits(t: &[u64; 9153], i: usize) -> bool
    requires { i < 256 }
    ensures { result ≡ packet_fits t.now i }
{
    words_fit(table::block_at(t, 7104 + i * 8))
}
