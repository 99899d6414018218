// Packets on the lent table: what a task sends, and whose turn it is (01, "Added here").
#![tactic(auto)]

ghost use Rattle.std.specs.Prelude.{◌≡◌, ◌≤◌, ◌<◌};
ghost use Rattle.sending.specs.Sending.{add_on_path, burst_kind, in_turn_of, next_hop, none_of, on_path_of, one_if, same_lane, send_all_of, send_on_of, send_up_of, sent_from};

use tasks::{Burst, Kind, Packet};

// The hop after h.
fn next_hop(down: bool, h: u32) -> u32
    requires { h ≤ 9 }
    ensures { result ≡ next_hop down h }
{
    if down {
        return h + 1;
    }
    if h == 0 {
        return 0;
    }
    h - 1
}

// A packet of session s, sent from hop h.
fn sent_from(s: u32, h: u32, kind: Kind) -> Packet
    requires { h ≤ 9 }
    ensures { result ≡ sent_from s h kind }
{
    let down = tasks::goes_down(kind);
    let hop = next_hop(down, h);
    Packet {
        session: s,
        hop: hop,
        down: down,
        kind: kind,
    }
}

// A task's onward packet, if it sends one.
pub fn send_on(t: &mut [u64; 9153], s: u32, h: u32, on: Option<Kind>)
    requires { h ≤ 9 }
    ensures { t.new ≡ send_on_of t.old s h on }
{
    match on {
        None => {}
        Some(kind) => {
            let p = sent_from(s, h, kind);
            table::append(t, p);
        }
    }
}

// How many packets that is.
pub fn one_if(on: Option<Kind>) -> usize
    ensures { (result ≡ one_if on) × (result ≤ 1) }
{
    usize::from(on.is_some())
}

// The kind of a burst.
fn burst_kind(b: Burst) -> Kind
    ensures { result ≡ burst_kind b }
{
    match b {
        Burst::Update => Kind::Update,
        Burst::Bottleneck => Kind::Bottleneck,
    }
}

// Link e sends one packet of a burst to session r.
fn send_up(t: &mut [u64; 9153], e: usize, b: Burst, r: u32)
    requires { r < 32 }
    ensures { t.new ≡ send_up_of e b t.old r }
{
    let h = table::hop_of(t, r as usize, e).unwrap_or(0);
    let kind = burst_kind(b);
    let p = sent_from(r, h, kind);
    table::append(t, p);
}

// And one to each session of a set.
#[tactic(auto, using(sessions::proofs::Loops::over_members), unfolding(crate::specs::Sending::send_all_of))]
pub fn send_all(t: &mut [u64; 9153], e: usize, b: Burst, to: u32)
    ensures { t.new ≡ send_all_of t.old e b to }
{
    for r in sessions::each(to) {
        send_up(t, e, b, r);
    }
}

// A set with session r, if link e is on its path.
fn add_on_path(t: &[u64; 9153], e: usize, a: u32, r: u32) -> u32
    requires { r < 32 }
    ensures { result ≡ add_on_path t.now e a r }
{
    match table::hop_of(t, r as usize, e) {
        Some(_) => sessions::put(a, r),
        None => a,
    }
}

// The sessions of a set whose path has link e.
#[tactic(auto, using(sessions::proofs::Loops::over_members), unfolding(crate::specs::Sending::on_path_of))]
pub fn on_path(t: &[u64; 9153], e: usize, to: u32) -> u32
    ensures { result ≡ on_path_of t.now e to }
{
    let mut found = 0u32;
    for r in sessions::each(to) {
        found = add_on_path(t, e, found, r);
    }
    found
}

// Whether two packets have the same session, hop and direction.
#[tactic(auto, unfolding(crate::specs::Sending::same_lane))]
fn same_lane(p: Packet, q: Packet) -> bool
    ensures { result ≡ same_lane p q }
{
    p.session == q.session && p.hop == q.hop && tasks::same_way(p.down, q.down)
}

// Whether no earlier packet has the session, hop and direction of the one at place i.
pub fn in_turn(t: &[u64; 9153], i: usize) -> bool
    requires { i < 256 }
    ensures { result ≡ in_turn_of t.now i }
{
    let p = table::packet_at(t, i);
    (0..i).all(|j| !same_lane(table::packet_at(t, j), p))
}

// Whether none of the first n packets is one of session s.
pub fn none_of(t: &[u64; 9153], s: u32, n: usize) -> bool
    requires { n ≤ 256 }
    ensures { result ≡ none_of t.now s n }
{
    (0..n).all(|i| table::packet_at(t, i).session != s)
}
