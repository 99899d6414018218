// 01, "Settled: five conditions": whether a table is settled. Each session and each link is looked at once, and of a link only the entries of the
// sessions that it holds.
#![tactic(auto)]

ghost use Rattle.std.specs.Prelude.{not, ◌&&◌, ◌||◌, ◌≡◌, ◌≤◌, ◌<◌};
ghost use Rattle.fractions.specs.Fraction.{Sized, le_of, max_rate, same_of, whole_of};
ghost use Rattle.links.specs.Links.{BoundSized, below_b, equals_b};
ghost use Rattle.records.specs.Format.{all};
ghost use Rattle.sessions.specs.Set.{has_of};
ghost use Rattle.table.specs.Values.{ToldInRange};
ghost use Rattle.table.specs.Words.{link_of, place_of, source_of};
ghost use Rattle.conditions.specs.Settled.{agrees_at, condition_a, condition_c, is_told, link_rated, member_rated, members_rated, path_agrees, settled_of};
ghost use Rattle.conditions.specs.OneSession.{RestrictedIn, session_settles};

use fractions::Rate;
use links::{Bound, Link};

// (a) NO PACKET IS IN FLIGHT ------------------------------------------------------------------------------------------

#[tactic(auto, unfolding(crate::specs::Settled::condition_a))]
fn condition_a(t: &[u64; 9153]) -> bool
    ensures { result ≡ condition_a t.now }
{
    table::count(t) == 0
}

// (b) EVERY ACTIVE SESSION IS IDLE, WITH ONE SAME RATE, AT ITS SOURCE AND AT EVERY LINK OF ITS PATH -------------------

// Link e holds session s, idle, with rate x.
#[tactic(auto, using(links::proofs::Sizes::to_limit, table::proofs::InRange::row_rates, totals::proofs::Held::held_is), unfolding(crate::specs::Settled::agrees_at))]
fn agrees_at(t: &[u64; 9153], e: usize, s: usize, x: Rate) -> bool
    requires { (e < 64) × (s < 32) × Sized max_rate x }
    ensures { result ≡ agrees_at x (place_of t.now e) s }
{
    let l = table::link_at(t, e);
    let y = table::entry_in(t, e, s);
    sessions::has(l.r | l.f, s as u32) && links::is_idle(y.mu) && y.rate.same(x)
}

// So do the links of its path, with the source's rate.
fn path_agrees(t: &[u64; 9153], s: usize, x: Rate) -> bool
    requires { (s < 32) × (x ≡ (source_of t.now s).rate) }
    ensures { result ≡ path_agrees t.now s }
{
    (0..table::hops_at(t, s)).all(|i| agrees_at(t, table::stop_at(t, s, i), s, x))
}

// (c) EVERY MEMBER OF R HAS RATE B, EVERY MEMBER OF F LESS, AND IF R IS EMPTY THE SUM OF F IS AT MOST C ---------------

// A session of rate x, at a link with this B, R and F.
fn member_rated(b: Bound, r: u32, f: u32, s: u32, x: Rate) -> bool
    requires { BoundSized b × (s < 32) × Sized max_rate x }
    ensures { result ≡ ((not (has_of s r) || equals_b b x) && (not (has_of s f) || below_b b x)) }
{
    (!sessions::has(r, s) || links::equals_b(b, x))
        && (!sessions::has(f, s) || links::below_b(b, x))
}

// Session s at link e, whose record is l.
fn rated_at(t: &[u64; 9153], e: usize, b: Bound, l: Link, s: u32) -> bool
    requires { (e < 64) × BoundSized b × (s < 32) × (l ≡ link_of t.now e) }
    ensures { result ≡ member_rated b (place_of t.now e) s }
{
    let y = table::entry_in(t, e, s as usize);
    member_rated(b, l.r, l.f, s, y.rate)
}

// The sessions that link e holds, by rising number.
fn members_rated(t: &[u64; 9153], e: usize, b: Bound) -> bool
    requires { (e < 64) × BoundSized b }
    ensures { result ≡ members_rated b (place_of t.now e) }
{
    let l = table::link_at(t, e);
    sessions::each(l.r | l.f).all(|s| rated_at(t, e, b, l, s))
}

// Of a link that holds nobody there is nothing to ask.
fn link_rated(t: &[u64; 9153], e: usize) -> bool
    requires { e < 64 }
    ensures { result ≡ link_rated t.now e }
{
    let l = table::link_at(t, e);
    if l.r | l.f == 0 {
        return true;
    }
    let total = totals::sum_at(t, e);
    let b = links::bound_from(l.capacity, sessions::size(l.r), total);
    members_rated(t, e, b) && (l.r != 0 || total.is_ok())
}

fn condition_c(t: &[u64; 9153]) -> bool
    ensures { result ≡ condition_c t.now }
{
    (0..64).all(|e| link_rated(t, e))
}

// (d) EACH SESSION IS IN R AT SOME LINK OR ITS RATE EQUALS D, AND NO RATE EXCEEDS D -----------------------------------

// The sessions that are in R at some link.
fn restricted(t: &[u64; 9153]) -> u32
    ensures { RestrictedIn t.now result }
{
    (0..64).fold(0, |some, e| some | table::link_at(t, e).r)
}

// A session of rate x and this own limit D, which is in R at some link, or not.
#[tactic(auto, using(fractions::proofs::Ranges::whole_sized, links::proofs::Sizes::to_limit))]
fn is_limited(in_r: bool, x: Rate, limit: u64) -> bool
    requires { Sized max_rate x × (limit ≤ max_rate) }
    ensures { result ≡ ((in_r || same_of x (whole_of limit)) && le_of x (whole_of limit)) }
{
    let d = Rate::whole(limit);
    (in_r || x.same(d)) && x.le(d)
}

// (e) THE RATE EACH SOURCE LAST TOLD ITS SESSION IS THIS ONE ----------------------------------------------------------

fn is_told(told: Option<Rate>, x: Rate) -> bool
    requires { ToldInRange told × Sized max_rate x }
    ensures { result ≡ is_told told x }
{
    match told {
        None => false,
        Some(y) => y.same(x),
    }
}

// ALL FIVE ------------------------------------------------------------------------------------------------------------

// (b), (d) and (e) of one session.
#[tactic(auto, using(declarations::proofs::OwnLimit::own_limit_le, crate::proofs::OneSession::settles_active, crate::proofs::OneSession::settles_inactive, table::proofs::InRange::source_in_range_lem))]
fn session_settles(t: &[u64; 9153], s: usize, some: u32) -> bool
    requires { (s < 32) × RestrictedIn t.now some }
    ensures { result ≡ session_settles t.now s }
{
    if !table::active_at(t, s) {
        return true;
    }
    let z = table::source_at(t, s);
    let in_r = sessions::has(some, s as u32);
    links::is_idle(z.mu)
        && !z.updated
        && path_agrees(t, s, z.rate)
        && is_limited(in_r, z.rate, declarations::own_limit(z.access, z.maximum))
        && is_told(z.told, z.rate)
}

fn sessions_settle(t: &[u64; 9153]) -> bool
    ensures { result ≡ all 32 (session_settles t.now) }
{
    let some = restricted(t);
    (0..32).all(|s| session_settles(t, s, some))
}

// Whether the table is settled.
#[tactic(auto, using(crate::proofs::OneSession::settled_once))]
pub fn is_settled(t: &[u64; 9153]) -> bool
    ensures { result ≡ settled_of t.now }
{
    condition_a(t) && sessions_settle(t) && condition_c(t)
}
