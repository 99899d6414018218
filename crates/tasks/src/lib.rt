// Packets, and the task of a link on values (001, Figure 2).
#![tactic(auto)]

ghost use Rattle.std.specs.Prelude.{◌≡◌, true, false, ◌&&◌, ℕ, ◌≤◌, ◌<◌};
ghost use Rattle.fractions.specs.Fraction.{Sized, max_rate, zero_of};
ghost use Rattle.tasks.specs.declared.Kind.TheVariants as kind;
ghost use Rattle.links.specs.declared.Mu.TheVariants as mu;
ghost use Rattle.links.specs.Links.{B, BoundSized, Rates, Workable, awaits_response, below_b, entry, equals_b, holds, in_r, is_fine, is_idle, mu_at, rate_at};
ghost use Rattle.tasks.specs.Packets.{goes_down, is_leave, same_way};
ghost use Rattle.tasks.specs.Figure2.{KindSized, accepted_of, agreed_of, answered_of, bottleneck_of, freed_of, is_link, join_of, leave_of, link_step_of, lowered_of, named_of, probe_of, quiet, response_of, restricted_of, set_bottleneck_of, staying_of, update_of, updating, without_of};

use fractions::Rate;
use links::{Bound, Entry, Mu, Place};

// What a Response asks for.
#[derive(Clone, Copy, Debug, PartialEq, Eq)]
pub enum Tau {
    Response,
    Update,
    Bottleneck,
}

// The link that imposed a packet's rate: the source's own line, or a link of the path. Both name a line, so this is no Option.
#[derive(Clone, Copy, Debug, PartialEq, Eq)]
pub enum Eta {
    Own,
    Link(u32),
}

// A packet's kind, with what the paper gives it besides its session. Join, Probe, SetBottleneck and Leave go downstream, the others upstream.
#[derive(Clone, Copy)]
pub enum Kind {
    Join(Rate, Eta),
    Probe(Rate, Eta),
    Response(Tau, Rate, Eta),
    Update,
    Bottleneck,
    SetBottleneck(bool),
    Leave,
}

// A packet in flight: its hop is the one that it is about to reach; down is the way to the destination.
#[derive(Clone, Copy)]
pub struct Packet {
    pub session: u32,
    pub hop: u32,
    pub down: bool,
    pub kind: Kind,
}

// What a link sends upstream to a set of sessions.
#[derive(Clone, Copy, Debug, PartialEq, Eq)]
pub enum Burst {
    Update,
    Bottleneck,
}

// What a link does with a packet: the link after it; what it sends, first to the sessions of a word by rising number, then of the packet's own, if anything;
// and whether every partial sum and B that was read, and those of the link after it, are within the limit of refusal 12.
#[derive(Clone, Copy)]
pub struct Did {
    pub place: Place,
    pub burst: Burst,
    pub to: u32,
    pub on: Option<Kind>,
    pub fine: bool,
}

// Whether packets of this kind go downstream.
pub fn goes_down(kind: Kind) -> bool
    ensures { result ≡ goes_down kind }
{
    matches!(
        kind,
        Kind::Join(..) | Kind::Probe(..) | Kind::SetBottleneck(_) | Kind::Leave
    )
}

// Whether both go downstream, or both upstream.
pub fn same_way(a: bool, b: bool) -> bool
    ensures { result ≡ same_way a b }
{
    a == b
}

// Whether a packet is a Leave.
pub fn is_leave(kind: Kind) -> bool
    ensures { result ≡ is_leave kind }
{
    matches!(kind, Kind::Leave)
}

// 0/1 and waiting: what a link keeps of a session that joins.
fn joining_entry() -> Entry
    ensures { result ≡ entry mu.WaitingResponse zero_of }
{
    Entry {
        mu: Mu::WaitingResponse,
        rate: Rate::ZERO,
    }
}

// Whether a session in this state waits for a response.
fn awaits_response(m: Mu) -> bool
    ensures { result ≡ awaits_response m }
{
    matches!(m, Mu::WaitingResponse)
}

// The rate that a packet carries, and the line that imposed it: λ and η.
#[derive(Clone, Copy)]
struct Carried {
    rate: Rate,
    eta: Eta,
}

impl Carried {
    // Past link e: the smaller of the rate and B, and link e if B was smaller.
    fn past(self, e: u32, b: Bound) -> Carried
        requires { BoundSized b × Sized max_rate self.rate }
        ensures { (result.rate ≡ lowered_of b self.rate) × (result.eta ≡ named_of b self.rate e self.eta) }
    {
        match b {
            Bound::At(rate) if rate.lt(self.rate) => Carried {
                rate,
                eta: Eta::Link(e),
            },
            _ => self,
        }
    }
}

// Whether session s is in R and waits for a response.
fn awaits_in_r(p: Place, s: u32) -> bool
    requires { s < 32 }
    ensures { result ≡ in_r p s && awaits_response (mu_at p s) }
{
    sessions::has(p.link.r, s) && awaits_response(p.entries[s as usize].mu)
}

// Whether session s is idle and in R.
fn idle_in_r(p: Place, s: u32) -> bool
    requires { s < 32 }
    ensures { result ≡ is_idle (mu_at p s) && in_r p s }
{
    links::is_idle(p.entries[s as usize].mu) && sessions::has(p.link.r, s)
}

// Whether session s is idle with a rate below B.
fn idle_below_b(b: Bound, p: Place, s: u32) -> bool
    requires { (s < 32) × BoundSized b × Rates p.entries }
    ensures { result ≡ below_b b (rate_at p s) && is_idle (mu_at p s) }
{
    let x = p.entries[s as usize];
    links::below_b(b, x.rate) && links::is_idle(x.mu)
}

// Whether session s is idle with rate B.
fn idle_at_b(b: Bound, p: Place, s: u32) -> bool
    requires { (s < 32) × BoundSized b × Rates p.entries }
    ensures { result ≡ is_idle (mu_at p s) && equals_b b (rate_at p s) }
{
    let x = p.entries[s as usize];
    links::is_idle(x.mu) && links::equals_b(b, x.rate)
}

// Nobody but the packet's own session is sent anything.
fn quietly(p: Place, on: Option<Kind>, fine: bool) -> Did
    ensures { result ≡ quiet p on fine }
{
    Did {
        place: p,
        burst: Burst::Update,
        to: 0,
        on,
        fine,
    }
}

// Each session of w gets an Update and waits for a probe.
fn updating(p: Place, w: u32, on: Option<Kind>, fine: bool) -> Did
    ensures { result ≡ updating p w on fine }
{
    Did {
        place: links::waiting(p, w),
        burst: Burst::Update,
        to: w,
        on,
        fine,
    }
}

// Join.
#[tactic(auto, using(links::proofs::Sizes::process_sized, links::proofs::Sizes::workable_entry, links::proofs::Sizes::workable_words), unfolding(crate::specs::Figure2::join_of))]
fn join_at(e: u32, s: u32, x: Carried, p: Place) -> Did
    requires { (s < 32) × Sized max_rate x.rate × Workable p }
    ensures { result ≡ join_of e s x.rate x.eta p }
{
    let member = links::with_words(p, sessions::put(p.link.r, s), p.link.f);
    let q = links::process_new_restricted(links::with_entry(member, s, joining_entry()));
    let y = x.past(e, q.bound);
    Did {
        place: q.place,
        burst: Burst::Update,
        to: q.to,
        on: Some(Kind::Join(y.rate, y.eta)),
        fine: links::is_fine(q.bound),
    }
}

// A Probe of a session in F, which returns to R.
#[tactic(auto, using(links::proofs::Sizes::process_sized, links::proofs::Sizes::workable_words), unfolding(crate::specs::Figure2::restricted_of))]
fn restricted(e: u32, s: u32, x: Carried, v: Place) -> Did
    requires { (s < 32) × Sized max_rate x.rate × Workable v }
    ensures { result ≡ restricted_of e s x.rate x.eta v }
{
    let r = sessions::put(v.link.r, s);
    let f = sessions::cut(v.link.f, s);
    let q = links::process_new_restricted(links::with_words(v, r, f));
    let y = x.past(e, q.bound);
    Did {
        place: q.place,
        burst: Burst::Update,
        to: q.to,
        on: Some(Kind::Probe(y.rate, y.eta)),
        fine: links::is_fine(q.bound),
    }
}

// A Probe of a session in R.
#[tactic(auto, using(links::proofs::Sizes::b_sized), unfolding(crate::specs::Figure2::staying_of))]
fn staying(e: u32, x: Carried, v: Place) -> Did
    requires { Sized max_rate x.rate × Workable v }
    ensures { result ≡ staying_of e x.rate x.eta v }
{
    let b = links::bottleneck_rate(v);
    let y = x.past(e, b);
    quietly(v, Some(Kind::Probe(y.rate, y.eta)), links::is_fine(b))
}

// Probe.
#[tactic(auto, using(links::proofs::Sizes::workable_mu), unfolding(crate::specs::Figure2::probe_of))]
fn probe_at(e: u32, s: u32, x: Carried, p: Place) -> Did
    requires { (s < 32) × Sized max_rate x.rate × Workable p }
    ensures { result ≡ probe_of e s x.rate x.eta p }
{
    let v = links::with_mu(p, s, Mu::WaitingResponse);
    if sessions::has(p.link.f, s) {
        return restricted(e, s, x, v);
    }
    staying(e, x, v)
}

// Whether a packet's bottleneck is this link.
fn is_link(eta: Eta, e: u32) -> bool
    ensures { result ≡ is_link eta e }
{
    eta == Eta::Link(e)
}

// Whether a Response's rate agrees with this link's B.
fn accepted(b: Bound, e: u32, x: Carried) -> bool
    requires { BoundSized b × Sized max_rate x.rate }
    ensures { result ≡ accepted_of b e x.rate x.eta }
{
    if is_link(x.eta, e) {
        links::equals_b(b, x.rate)
    } else {
        links::at_most_b(b, x.rate)
    }
}

// The Response goes on; if all of R is idle with rate B, as a bottleneck's, and the others hear of it.
#[tactic(auto, unfolding(crate::specs::Figure2::answered_of))]
fn answered(b: Bound, e: u32, s: u32, tau: Tau, x: Carried, q: Place) -> Did
    requires { (s < 32) × BoundSized b × Rates q.entries }
    ensures { result ≡ answered_of b e s tau x.rate x.eta q }
{
    let fine = links::is_fine(b);
    if links::all_at_b(b, q) {
        return Did {
            place: q,
            burst: Burst::Bottleneck,
            to: sessions::cut(q.link.r, s),
            on: Some(Kind::Response(Tau::Bottleneck, x.rate, Eta::Link(e))),
            fine,
        };
    }
    quietly(q, Some(Kind::Response(tau, x.rate, x.eta)), fine)
}

// A Response that asks for no update: taken, or turned into one that does.
#[tactic(auto, using(links::proofs::Sizes::b_sized, links::proofs::Sizes::rates_set, links::proofs::Sizes::rates_mu), unfolding(crate::specs::Figure2::agreed_of))]
fn agreed(e: u32, s: u32, tau: Tau, x: Carried, p: Place) -> Did
    requires { (s < 32) × Sized max_rate x.rate × Workable p }
    ensures { result ≡ agreed_of e s tau x.rate x.eta p }
{
    let b = links::bottleneck_rate(p);
    if accepted(b, e, x) {
        let taken = Entry {
            mu: Mu::Idle,
            rate: x.rate,
        };
        return answered(b, e, s, tau, x, links::with_entry(p, s, taken));
    }
    let v = links::with_mu(p, s, Mu::WaitingProbe);
    answered(b, e, s, Tau::Update, x, v)
}

// Response.
#[tactic(auto, unfolding(crate::specs::Figure2::response_of))]
fn response_at(e: u32, s: u32, tau: Tau, x: Carried, p: Place) -> Did
    requires { (s < 32) × Sized max_rate x.rate × Workable p }
    ensures { result ≡ response_of e s tau x.rate x.eta p }
{
    match tau {
        Tau::Update => {
            let v = links::with_mu(p, s, Mu::WaitingProbe);
            quietly(v, Some(Kind::Response(Tau::Update, x.rate, x.eta)), true)
        }
        _ => agreed(e, s, tau, x, p),
    }
}

// Update.
#[tactic(auto, unfolding(crate::specs::Figure2::update_of))]
fn update_at(s: u32, p: Place) -> Did
    requires { s < 32 }
    ensures { result ≡ update_of s p }
{
    if links::is_idle(p.entries[s as usize].mu) {
        let v = links::with_mu(p, s, Mu::WaitingProbe);
        return quietly(v, Some(Kind::Update), true);
    }
    quietly(p, None, true)
}

// Bottleneck.
#[tactic(auto, unfolding(crate::specs::Figure2::bottleneck_of))]
fn bottleneck_at(s: u32, p: Place) -> Did
    requires { s < 32 }
    ensures { result ≡ bottleneck_of s p }
{
    if idle_in_r(p, s) {
        return quietly(p, Some(Kind::Bottleneck), true);
    }
    quietly(p, None, true)
}

// A session whose rate is below B goes to F.
#[tactic(auto, using(links::proofs::Sizes::workable_words), unfolding(crate::specs::Figure2::freed_of))]
fn freed(b: Bound, s: u32, beta: bool, p: Place) -> Did
    requires { (s < 32) × BoundSized b × Workable p }
    ensures { result ≡ freed_of b s beta p }
{
    let q = links::with_words(p, sessions::cut(p.link.r, s), sessions::put(p.link.f, s));
    let fine = links::is_fine(links::bottleneck_rate(q));
    updating(
        q,
        links::those_at_b(b, p, p.link.r),
        Some(Kind::SetBottleneck(beta)),
        fine,
    )
}

// SetBottleneck.
#[tactic(auto, using(links::proofs::Sizes::b_sized), unfolding(crate::specs::Figure2::set_bottleneck_of))]
fn set_bottleneck_at(s: u32, beta: bool, p: Place) -> Did
    requires { (s < 32) × Workable p }
    ensures { result ≡ set_bottleneck_of s beta p }
{
    let b = links::bottleneck_rate(p);
    let fine = links::is_fine(b);
    if links::all_at_b(b, p) {
        return quietly(p, Some(Kind::SetBottleneck(true)), fine);
    }
    if idle_below_b(b, p, s) {
        return freed(b, s, beta, p);
    }
    if idle_at_b(b, p, s) {
        return quietly(p, Some(Kind::SetBottleneck(beta)), fine);
    }
    quietly(p, None, fine)
}

// The link without session s.
#[tactic(auto, unfolding(crate::specs::Figure2::without_of))]
fn without(s: u32, p: Place) -> Place
    requires { s < 32 }
    ensures { result ≡ without_of s p }
{
    let gone = Entry {
        mu: Mu::Idle,
        rate: Rate::ZERO,
    };
    if sessions::has(p.link.f, s) {
        let f = sessions::cut(p.link.f, s);
        return links::with_entry(links::with_words(p, p.link.r, f), s, gone);
    }
    let r = sessions::cut(p.link.r, s);
    links::with_entry(links::with_words(p, r, p.link.f), s, gone)
}

// Leave.
#[tactic(auto, using(links::proofs::Sizes::b_sized, crate::proofs::Leaves::workable_without), unfolding(crate::specs::Figure2::leave_of))]
fn leave_at(s: u32, p: Place) -> Did
    requires { (s < 32) × Workable p }
    ensures { result ≡ leave_of s p }
{
    let b = links::bottleneck_rate(p);
    let others = sessions::cut(p.link.r, s);
    let at = links::those_at_b(b, p, others);
    let q = without(s, p);
    let fine = links::is_fine(b) && links::is_fine(links::bottleneck_rate(q));
    updating(q, at, Some(Kind::Leave), fine)
}

// A Response, where its session is in R and waits for one; else it is dropped.
#[tactic(auto, unfolding(crate::specs::Figure2::link_step_of))]
fn response_or_dropped(e: u32, s: u32, tau: Tau, x: Carried, p: Place) -> Did
    requires { (s < 32) × Sized max_rate x.rate × Workable p }
    ensures { result ≡ link_step_of e s (kind.Response tau x.rate x.eta) p }
{
    if awaits_in_r(p, s) {
        return response_at(e, s, tau, x, p);
    }
    quietly(p, None, true)
}

// A packet of a session that the link holds.
#[tactic(auto, unfolding(crate::specs::Figure2::link_step_of))]
fn held(e: u32, s: u32, kind: Kind, p: Place) -> Did
    requires { (s < 32) × KindSized kind × Workable p × (holds p s ≡ true) }
    ensures { result ≡ link_step_of e s kind p }
{
    match kind {
        Kind::Join(..) => quietly(p, None, true),
        Kind::Probe(rate, eta) => probe_at(e, s, Carried { rate, eta }, p),
        Kind::Response(tau, rate, eta) => response_or_dropped(e, s, tau, Carried { rate, eta }, p),
        Kind::Update => update_at(s, p),
        Kind::Bottleneck => bottleneck_at(s, p),
        Kind::SetBottleneck(beta) => set_bottleneck_at(s, beta, p),
        Kind::Leave => leave_at(s, p),
    }
}

// A packet of a session that the link does not hold.
#[tactic(auto, unfolding(crate::specs::Figure2::link_step_of))]
fn not_held(e: u32, s: u32, kind: Kind, p: Place) -> Did
    requires { (s < 32) × KindSized kind × Workable p × (holds p s ≡ false) }
    ensures { result ≡ link_step_of e s kind p }
{
    match kind {
        Kind::Join(rate, eta) => join_at(e, s, Carried { rate, eta }, p),
        Kind::Leave => quietly(p, Some(Kind::Leave), true),
        _ => quietly(p, None, true),
    }
}

// What link e does with a packet of session s.
pub fn link_step(e: u32, s: u32, kind: Kind, p: Place) -> Did
    requires { (s < 32) × KindSized kind × Workable p }
    ensures { result ≡ link_step_of e s kind p }
{
    if links::holds(p, s) {
        held(e, s, kind, p)
    } else {
        not_held(e, s, kind, p)
    }
}
