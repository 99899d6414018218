// A link with its entries: its words R and F, and sets of its sessions (001, section III). Its B is in sums.rt, the F check in check.rt.
#![tactic(auto)]

mod check;
mod sums;

ghost use Rattle.std.specs.Prelude.{Bool, cond, ◌≡◌, ◌<◌};
ghost use Rattle.fractions.specs.Fraction.{Sized, max_rate};
ghost use Rattle.sessions.specs.Set.{put};
ghost use Rattle.links.specs.declared.NoTotal.TheVariants as no_total;
ghost use Rattle.links.specs.Links.{AsksRates, BoundSized, Rates, Tests, all_at_b, holds, idle_at, is_idle, those_of, waiting_of, with_entry, with_mu, with_words};

pub use check::{check_f, process_new_restricted};
use fractions::{Rate, TooFine};
pub use sums::{
    above_b, at_most_b, below_b, bottleneck_rate, bound_from, equals_b, is_fine, is_past_c, more,
    sum_of_f,
};

// The state of a session at a link or at its source.
#[derive(Clone, Copy)]
pub enum Mu {
    Idle,
    WaitingProbe,
    WaitingResponse,
}

// What a link keeps of a session: its state and its rate.
#[derive(Clone, Copy)]
pub struct Entry {
    pub mu: Mu,
    pub rate: Rate,
}

// A link's own record; capacity 0: not declared. r and f are the words of R and F.
#[derive(Clone, Copy)]
pub struct Link {
    pub capacity: u64,
    pub r: u32,
    pub f: u32,
}

// A link with the entries of its 32 sessions. An entry exists where its session is in R or F. That it is `Workable` is a clause and no invariant of the
// type: `holds`, `with_words`, `waiting` and the others that ask for no size take every Place, and so may a caller.
#[derive(Clone, Copy)]
pub struct Place {
    pub link: Link,
    pub entries: [Entry; 32],
}

// Why F comes to no rate: a partial sum has a denominator over the limit (01, refusal 12), or is past the capacity (refusal 14).
#[derive(Clone, Copy, Debug, PartialEq, Eq)]
pub enum NoTotal {
    TooFine,
    PastC,
}

impl From<TooFine> for NoTotal {
    ghost from_gives = { λ _ r. r ≡ no_total.TooFine };

    fn from(_e: TooFine) -> NoTotal {
        NoTotal::TooFine
    }
}

// B of a link; or, where R is empty, that it is above every rate; or that a partial sum or B has a denominator over the limit.
// No Result<_, TooFine>: Figure 2's definitions (`process_of`, `lowered_of`) go on with a B that is too fine, and no `?` takes it out of one.
#[derive(Clone, Copy)]
pub enum Bound {
    At(Rate),
    Above,
    TooFine,
}

// A link that the F check leaves, with its B.
#[derive(Clone, Copy)]
pub struct Checked {
    pub place: Place,
    pub bound: Bound,
}

// What ProcessNewRestricted leaves: the link, the sessions that are sent an Update, and the link's B.
#[derive(Clone, Copy)]
pub struct Processed {
    pub place: Place,
    pub to: u32,
    pub bound: Bound,
}

// Whether a session in this state is idle.
pub fn is_idle(m: Mu) -> bool
    ensures { result ≡ is_idle m }
{
    matches!(m, Mu::Idle)
}

// Whether the link holds session s.
pub fn holds(p: Place, s: u32) -> bool
    requires { s < 32 }
    ensures { result ≡ holds p s }
{
    sessions::has(p.link.r, s) || sessions::has(p.link.f, s)
}

// The link with other words R and F.
pub fn with_words(p: Place, r: u32, f: u32) -> Place
    ensures { result ≡ with_words p r f }
{
    let mut next = p;
    next.link.r = r;
    next.link.f = f;
    next
}

// The link with another entry of session s.
pub fn with_entry(p: Place, s: u32, x: Entry) -> Place
    requires { s < 32 }
    ensures { result ≡ with_entry p s x }
{
    let mut next = p;
    next.entries[s as usize] = x;
    next
}

// The link, where session s is in another state.
pub fn with_mu(p: Place, s: u32, m: Mu) -> Place
    requires { s < 32 }
    ensures { result ≡ with_mu p s m }
{
    let mut next = p;
    next.entries[s as usize].mu = m;
    next
}

// The members of w whose entries are what is asked for: {s ∈ w : ..}, for each test that the answers of asked agree with.
pub fn those<A: Fn(Entry) -> bool>(p: Place, w: u32, asked: A) -> u32
    requires rates { Rates p.entries }
    requires asked { AsksRates (A.pre asked) }
    ensures { (meets : Entry → Bool) → Tests (A.post asked) meets → result ≡ those_of meets p.entries w }
{
    let mut found = 0u32;
    for s in sessions::each(w) {
        if asked(p.entries[s as usize]) {
            found = sessions::put(found, s);
        }
    }
    found
}

// The members of w that are idle with rate B.
pub fn those_at_b(b: Bound, p: Place, w: u32) -> u32
    requires { BoundSized b × Rates p.entries }
    ensures { result ≡ those_of (idle_at b) p.entries w }
{
    those(p, w, |x| is_idle(x.mu) && equals_b(b, x.rate))
}

// Whether all of R is idle with rate B.
pub fn all_at_b(b: Bound, p: Place) -> bool
    requires { BoundSized b × Rates p.entries }
    ensures { result ≡ all_at_b b p }
{
    those_at_b(b, p, p.link.r) == p.link.r
}

// The entries, where each session of w now waits for a probe.
pub fn waiting(p: Place, w: u32) -> Place
    ensures { result ≡ waiting_of p w }
{
    let mut next = p;
    for s in sessions::each(w) {
        next.entries[s as usize].mu = Mu::WaitingProbe;
    }
    next
}
