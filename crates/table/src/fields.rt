// What one word says, and eight words at a time.
// The codes of states, kinds and names are this layout's alone. As `From` and `TryFrom` they would have to stand in the crates of those types.
ghost use Rattle.std.specs.Prelude.{◌≡◌, ◌≤◌};
ghost use Rattle.table.specs.Words.{block_at, put_block};
ghost use Rattle.table.specs.Codes.{bit_of, eta_code, eta_of, field_of, mu_code, mu_of, tau_code, tau_of, told_code, told_of, told_rate};

use fractions::Rate;
use links::Mu;
use tasks::{Eta, Tau};

// A number of at most `most`, or 0 where the word is over it.
#[tactic(auto, unfolding(crate::specs::Codes::field_of))]
pub fn field(n: u64, most: u64) -> u64
    ensures { (result ≡ field_of most n) × (result ≤ most) }
{
    if n <= most { n } else { 0 }
}

pub fn bit(b: bool) -> u64
    ensures { result ≡ bit_of b }
{
    if b { 1 } else { 0 }
}

#[tactic(auto, unfolding(crate::specs::Codes::mu_of))]
pub fn mu_of(n: u64) -> Mu
    ensures { result ≡ mu_of n }
{
    match n {
        1 => Mu::WaitingProbe,
        2 => Mu::WaitingResponse,
        _ => Mu::Idle,
    }
}

pub fn mu_code(m: Mu) -> u64
    ensures { result ≡ mu_code m }
{
    match m {
        Mu::Idle => 0,
        Mu::WaitingProbe => 1,
        Mu::WaitingResponse => 2,
    }
}

#[tactic(auto, unfolding(crate::specs::Codes::tau_of))]
pub fn tau_of(n: u64) -> Tau
    ensures { result ≡ tau_of n }
{
    match n {
        1 => Tau::Update,
        2 => Tau::Bottleneck,
        _ => Tau::Response,
    }
}

pub fn tau_code(x: Tau) -> u64
    ensures { result ≡ tau_code x }
{
    match x {
        Tau::Response => 0,
        Tau::Update => 1,
        Tau::Bottleneck => 2,
    }
}

// The link that imposed a rate: 64 is the source's own line.
#[tactic(auto, unfolding(crate::specs::Codes::eta_of))]
pub fn eta_of(n: u64) -> Eta
    ensures { result ≡ eta_of n }
{
    if n == 64 {
        Eta::Own
    } else {
        Eta::Link(field(n, 63) as u32)
    }
}

pub fn eta_code(n: Eta) -> u64
    ensures { result ≡ eta_code n }
{
    match n {
        Eta::Own => 64,
        Eta::Link(e) => e as u64,
    }
}

#[tactic(auto, unfolding(crate::specs::Codes::told_of))]
pub fn told_of(code: u64, n: u64, d: u64) -> Option<Rate>
    ensures { result ≡ told_of code n d }
{
    if code == 1 {
        Some(Rate::kept(n, d))
    } else {
        None
    }
}

pub fn told_code(x: Option<Rate>) -> u64
    ensures { result ≡ told_code x }
{
    if x.is_some() { 1 } else { 0 }
}

// The rate told as two numbers: 0 and 0 where none was.
pub fn told_rate(x: Option<Rate>) -> Rate
    ensures { result ≡ told_rate x }
{
    x.unwrap_or(Rate { num: 0, den: 0 })
}

pub fn block_at(t: &[u64; 9153], a: usize) -> [u64; 8]
    requires { a ≤ 9145 }
    ensures { result ≡ block_at t.now a }
{
    std::array::from_fn(|i| t[a + i])
}

pub fn put_block(t: &mut [u64; 9153], a: usize, b: [u64; 8])
    requires { a ≤ 9145 }
    ensures { t.new ≡ put_block t.old a b }
{
    t[a..a + 8].copy_from_slice(&b);
}
