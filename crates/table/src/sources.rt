// Sources, and the paths of their sessions.
ghost use Rattle.std.specs.Prelude.{◌≡◌, ◌+◌, ◌≤◌, ◌<◌, length, MatchOption};
ghost use Rattle.table.specs.Words.{block_at, head_words, hop_of, hops_of, put_hops, put_path, put_rates, put_source, source_from, source_of, stop_of};

use super::fields::{
    bit, block_at, field, mu_code, mu_of, put_block, told_code, told_of, told_rate,
};
use ends::Source;
use fractions::Rate;

// A source from its first eight words and the next eight.
fn source_from(b: [u64; 8], c: [u64; 8]) -> Source
    ensures { result ≡ source_from b c }
{
    let access = field(b[1], Rate::MAX);
    let maximum = field(b[2], Rate::MAX);
    let mu = mu_of(b[4]);
    let rate = Rate::kept(c[0], c[1]);
    let told = told_of(b[7], c[2], c[3]);
    Source {
        active: b[0] == 1,
        access,
        maximum,
        free: b[3] == 1,
        mu,
        rate,
        updated: b[5] == 1,
        bottlenecked: b[6] == 1,
        told,
    }
}

pub fn source_at(t: &[u64; 9153], s: usize) -> Source
    requires { s < 32 }
    ensures { result ≡ source_of t.now s }
{
    let a = 6336 + s * 24;
    let b = block_at(t, a);
    let c = block_at(t, a + 8);
    source_from(b, c)
}

// Whether session s is active.
pub fn active_at(t: &[u64; 9153], s: usize) -> bool
    requires { s < 32 }
    ensures { result ≡ (source_of t.now s).active }
{
    t[6336 + s * 24] == 1
}

// The first eight words of a source.
fn head_words(z: Source) -> [u64; 8]
    ensures { result ≡ head_words z }
{
    let mu = z.mu;
    let told = z.told;
    let m = mu_code(mu);
    let active = bit(z.active);
    let free = bit(z.free);
    let updated = bit(z.updated);
    let bottlenecked = bit(z.bottlenecked);
    let code = told_code(told);
    [
        active,
        z.access,
        z.maximum,
        free,
        m,
        updated,
        bottlenecked,
        code,
    ]
}

// The words of two rates.
fn put_rates(t: &mut [u64; 9153], a: usize, x: Rate, y: Rate)
    requires { a ≤ 9145 }
    ensures { t.new ≡ put_rates t.old a x y }
{
    t[a] = x.num;
    t[a + 1] = x.den;
    t[a + 2] = y.num;
    t[a + 3] = y.den;
}

// All of a source but its hops and its path.
pub fn put_source(t: &mut [u64; 9153], s: usize, z: Source)
    requires { s < 32 }
    ensures { t.new ≡ put_source t.old s z }
{
    let a = 6336 + s * 24;
    let b = head_words(z);
    let rate = z.rate;
    let told = z.told;
    let last = told_rate(told);
    put_block(t, a, b);
    put_rates(t, a + 8, rate, last);
}

// How many links the path has.
pub fn hops_at(t: &[u64; 9153], s: usize) -> usize
    requires { s < 32 }
    ensures { result ≡ hops_of t.now s }
{
    let n = field(t[6336 + s * 24 + 12], 8);
    n as usize
}

pub fn put_hops(t: &mut [u64; 9153], s: usize, n: usize)
    requires { s < 32 }
    ensures { t.new ≡ put_hops t.old s n }
{
    t[6336 + s * 24 + 12] = n as u64;
}

// The link at place i of the path.
pub fn stop_at(t: &[u64; 9153], s: usize, i: usize) -> usize
    requires { (s < 32) × (i < 8) }
    ensures { result ≡ stop_of t.now s i }
{
    let e = field(t[6336 + s * 24 + 16 + i], 63);
    e as usize
}

// Eight bytes of the input, as words.
fn bytes_at(input: &[u8], at: usize) -> [u64; 8]
    requires { at + 8 ≤ length input.now }
    ensures { result ≡ block_at input.now at }
{
    std::array::from_fn(|i| u64::from(input[at + i]))
}

// The eight link bytes of a path, as they stand in the input from `at` on.
pub fn put_path(t: &mut [u64; 9153], s: usize, input: &[u8], at: usize)
    requires { (s < 32) × (at + 8 ≤ length input.now) }
    ensures { t.new ≡ put_path t.old s input.now at }
{
    let b = bytes_at(input, at);
    put_block(t, 6336 + s * 24 + 16, b);
}

// The hop of link e on the path of s, counted from 1, or none where it is not on it.
pub fn hop_of(t: &[u64; 9153], s: usize, e: usize) -> Option<u32>
    requires { s < 32 }
    ensures { MatchOption result (hop_of t.now s e ≡ 0) (λ h. (0 < h) × (h ≡ hop_of t.now s e)) }
{
    let i = (0..hops_at(t, s)).position(|i| stop_at(t, s, i) == e)?;
    Some(i as u32 + 1)
}
