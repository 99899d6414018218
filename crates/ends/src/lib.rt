// The tasks of a source (001, Figure 3) and of a destination (Figure 4), on values.
#![tactic(auto)]

ghost use Rattle.std.specs.Prelude.{None, not, ◌&&◌, ◌||◌, ◌≡◌, ℕ, ◌≤◌};
ghost use Rattle.fractions.specs.Fraction.{Sized, lt_of, max_rate, whole_of};
ghost use Rattle.links.specs.Links.{is_idle};
ghost use Rattle.tasks.specs.Figure2.{KindSized};
ghost use Rattle.ends.specs.Figure3.{D, Ready, again_of, announced_of, arrived_of, assigned_of, changing_of, doing, idle_with, joining_of, leaving_of, noted_of, probing, source_bottleneck_of, source_response_of, source_step_of, source_update_of};
ghost use Rattle.ends.specs.Figure4.{destination_step_of};

use fractions::Rate;
use links::Mu;
use tasks::{Eta, Kind, Tau};

// What a source keeps of its session. Its R and F hold at most this session: free says that it is in F.
// updated and bottlenecked are the paper's upd_rcv and bneck_rcv; told is the rate last told to the session, if one was.
#[derive(Clone, Copy)]
pub struct Source {
    pub active: bool,
    pub access: u64,
    pub maximum: u64,
    pub free: bool,
    pub mu: Mu,
    pub rate: Rate,
    pub updated: bool,
    pub bottlenecked: bool,
    pub told: Option<Rate>,
}

// What a source does: the source after it, and what it sends, if anything.
#[derive(Clone, Copy)]
pub struct SourceDid {
    pub source: Source,
    pub on: Option<Kind>,
}

// D, the session's own limit, as a rate.
fn own_limit(z: Source) -> Rate
    ensures { result ≡ whole_of (D z) }
{
    Rate::whole(declarations::own_limit(z.access, z.maximum))
}

// A source asks again: it sends a Probe of D.
fn probing(z: Source) -> SourceDid
    ensures { result ≡ doing z (probing z) }
{
    SourceDid {
        source: z,
        on: Some(Kind::Probe(own_limit(z), Eta::Own)),
    }
}

// Nothing is sent.
fn silently(z: Source) -> SourceDid
    ensures { result ≡ doing z None }
{
    SourceDid {
        source: z,
        on: None,
    }
}

// A session joins.
#[tactic(auto, unfolding(crate::specs::Figure3::joining_of))]
pub fn joining(access: u64, maximum: u64) -> SourceDid
    ensures { result ≡ joining_of access maximum }
{
    let z = Source {
        active: true,
        access,
        maximum,
        free: false,
        mu: Mu::WaitingResponse,
        rate: Rate::ZERO,
        updated: false,
        bottlenecked: false,
        told: None,
    };
    SourceDid {
        source: z,
        on: Some(Kind::Join(own_limit(z), Eta::Own)),
    }
}

// A session leaves.
#[tactic(auto, unfolding(crate::specs::Figure3::leaving_of))]
pub fn leaving(z: Source) -> SourceDid
    ensures { result ≡ leaving_of z }
{
    SourceDid {
        source: Source {
            active: false,
            free: false,
            ..z
        },
        on: Some(Kind::Leave),
    }
}

// The source waits for the answer to a new Probe.
#[tactic(auto, unfolding(crate::specs::Figure3::again_of))]
fn again(z: Source) -> SourceDid
    ensures { result ≡ again_of z }
{
    probing(Source {
        mu: Mu::WaitingResponse,
        updated: false,
        bottlenecked: false,
        ..z
    })
}

// The source notes that an update came.
fn noted(z: Source) -> SourceDid
    ensures { result ≡ noted_of z }
{
    silently(Source { updated: true, ..z })
}

// A session changes its maximum.
#[tactic(auto, unfolding(crate::specs::Figure3::request_of, crate::specs::Figure3::again_of))]
pub fn changing(z: Source, maximum: u64) -> SourceDid
    ensures { result ≡ changing_of z maximum }
{
    let next = Source { maximum, ..z };
    if links::is_idle(z.mu) {
        return again(Source {
            free: false,
            ..next
        });
    }
    noted(next)
}

// Update.
#[tactic(auto, unfolding(crate::specs::Figure3::source_update_of))]
fn source_update(z: Source) -> SourceDid
    ensures { result ≡ source_update_of z }
{
    if links::is_idle(z.mu) {
        return probing(Source {
            free: false,
            mu: Mu::WaitingResponse,
            bottlenecked: false,
            ..z
        });
    }
    noted(z)
}

// The source tells its session the rate, goes to F if that is below D, and says so downstream.
#[tactic(auto, using(crate::proofs::OwnLimits::limit_sized, links::proofs::Sizes::to_limit), unfolding(crate::specs::Figure3::announced_of))]
fn announced(z: Source) -> SourceDid
    requires { Ready z }
    ensures { result ≡ announced_of z }
{
    let d = own_limit(z);
    SourceDid {
        source: Source {
            free: z.rate.lt(d) || z.free,
            bottlenecked: true,
            told: Some(z.rate),
            ..z
        },
        on: Some(Kind::SetBottleneck(d.same(z.rate))),
    }
}

// Whether the source is idle and has not heard of its bottleneck.
fn is_new(z: Source) -> bool
    ensures { result ≡ is_idle z.mu && not z.bottlenecked }
{
    links::is_idle(z.mu) && !z.bottlenecked
}

// Bottleneck.
#[tactic(auto, unfolding(crate::specs::Figure3::source_bottleneck_of))]
fn source_bottleneck(z: Source) -> SourceDid
    requires { Ready z }
    ensures { result ≡ source_bottleneck_of z }
{
    if is_new(z) {
        return announced(z);
    }
    silently(z)
}

// The source idle with a rate.
fn idle_with(z: Source, rate: Rate) -> Source
    ensures { result ≡ idle_with z rate }
{
    Source {
        mu: Mu::Idle,
        rate,
        ..z
    }
}

// A Response that only assigns a rate: if it is D, the session is told.
#[tactic(auto, using(crate::proofs::OwnLimits::limit_sized, links::proofs::Sizes::to_limit), unfolding(crate::specs::Figure3::assigned_of))]
fn assigned(z: Source, x: Rate) -> SourceDid
    requires { (z.access ≤ max_rate) × Sized max_rate x }
    ensures { result ≡ assigned_of z x }
{
    let next = idle_with(z, x);
    if own_limit(z).same(x) {
        return SourceDid {
            source: Source {
                bottlenecked: true,
                told: Some(x),
                ..next
            },
            on: Some(Kind::SetBottleneck(true)),
        };
    }
    silently(next)
}

// Response.
#[tactic(auto, unfolding(crate::specs::Figure3::source_response_of))]
fn source_response(z: Source, tau: Tau, x: Rate) -> SourceDid
    requires { (z.access ≤ max_rate) × Sized max_rate x }
    ensures { result ≡ source_response_of z tau x }
{
    match tau {
        Tau::Update => again(z),
        _ if z.updated => again(z),
        Tau::Bottleneck => announced(idle_with(z, x)),
        Tau::Response => assigned(z, x),
    }
}

// A packet at the source of a session that is active.
#[tactic(auto, unfolding(crate::specs::Figure3::arrived_of))]
fn arrived(kind: Kind, z: Source) -> SourceDid
    requires { KindSized kind × Ready z }
    ensures { result ≡ arrived_of kind z }
{
    match kind {
        Kind::Response(tau, x, _) => source_response(z, tau, x),
        Kind::Update => source_update(z),
        Kind::Bottleneck => source_bottleneck(z),
        _ => silently(z),
    }
}

// What a source does with a packet; one that has left drops it.
#[tactic(auto, unfolding(crate::specs::Figure3::source_step_of))]
pub fn source_step(kind: Kind, z: Source) -> SourceDid
    requires { KindSized kind × Ready z }
    ensures { result ≡ source_step_of kind z }
{
    if z.active {
        arrived(kind, z)
    } else {
        silently(z)
    }
}

// What a destination does with a packet.
pub fn destination_step(kind: Kind) -> Option<Kind>
    ensures { result ≡ destination_step_of kind }
{
    match kind {
        Kind::Join(x, eta) | Kind::Probe(x, eta) => Some(Kind::Response(Tau::Response, x, eta)),
        Kind::SetBottleneck(false) => Some(Kind::Update),
        _ => None,
    }
}
