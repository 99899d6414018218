// The events of the machine: what each record does to the lent words, and refusals 7 to 13 and 16 (01, "What is turned away"; 02, §1).
// A step is worked out on values with all its refusals before a word is written.
#![tactic(auto)]

ghost use Rattle.std.specs.Prelude.{not, true, ◌&&◌, ◌≡◌, ◌+◌, ◌≤◌, ◌<◌, ltb, length};
ghost use Rattle.records.specs.Format.{RecordOk};
ghost use Rattle.records.specs.Run.{verdict_number};
ghost use Rattle.records.specs.Limits.{link_limit, packet_limit};
ghost use Rattle.table.specs.Values.{PacketInRange};
ghost use Rattle.table.specs.Words.{count_of, declared_in, put_hops, put_path, put_place, put_source, removed};
ghost use Rattle.sending.specs.Sending.{one_if, send_all_of, send_on_of};
ghost use Rattle.events.specs.Events.{arrive_of, at_destination_of, at_link_of, at_source_of, change_of, declare_of, deliver_of, ended, event_of, join_of, leave_of, path_declared_in, source_sends};

use ends::SourceDid;
use links::Link;
use records::{Record, Refusal, SessionRecord};
use tasks::{Did, Kind, Packet};

// DELIVERY ------------------------------------------------------------------------------------------------------------

// What a link's step leaves is written: the packet goes, the link and its entries are as the step says, and what it sends is sent.
fn write_link(t: &mut [u64; 9153], i: usize, p: Packet, e: usize, d: Did, to: u32)
    requires { (i < count_of t.old) × (p.hop ≤ 9) × (e < 64) }
    ensures { t.new ≡ send_on_of (send_all_of (put_place (removed t.old i) e d.place) e d.burst to) p.session p.hop d.on }
{
    let place = d.place;
    let burst = d.burst;
    let on = d.on;
    table::remove(t, i);
    table::put_place(t, e, place);
    sending::send_all(t, e, burst, to);
    sending::send_on(t, p.session, p.hop, on);
}

// A packet reaches link e.
fn at_link(t: &mut [u64; 9153], i: usize, p: Packet, e: usize) -> Result<(), Refusal>
    requires { (i < count_of t.old) × PacketInRange p × (e < 64) }
    ensures { ended result t.new ≡ at_link_of t.old i p e }
{
    let place = table::place_at(t, e);
    let kind = p.kind;
    let d = tasks::link_step(e as u32, p.session, kind, place);
    if !d.fine {
        return Err(Refusal::TooFine);
    }
    let to = sending::on_path(t, e, d.to);
    let on = d.on;
    let n = table::count(t);
    let after = n - 1 + (sessions::size(to) as usize) + sending::one_if(on);
    if records::PACKETS < after {
        return Err(Refusal::TooManyPackets);
    }
    write_link(t, i, p, e, d, to);
    Ok(())
}

// What a source's step leaves is written, where the packet at place i is taken out.
fn write_source(t: &mut [u64; 9153], i: usize, s: u32, d: SourceDid)
    requires { (i < count_of t.old) × (s < 32) }
    ensures { t.new ≡ send_on_of (put_source (removed t.old i) s d.source) s 0 d.on }
{
    let source = d.source;
    let on = d.on;
    table::remove(t, i);
    table::put_source(t, s as usize, source);
    sending::send_on(t, s, 0, on);
}

// A packet reaches its source.
fn at_source(t: &mut [u64; 9153], i: usize, p: Packet) -> Result<(), Refusal>
    requires { (i < count_of t.old) × PacketInRange p }
    ensures { ended result t.new ≡ at_source_of t.old i p }
{
    let z = table::source_at(t, p.session as usize);
    let kind = p.kind;
    let d = ends::source_step(kind, z);
    let on = d.on;
    let n = table::count(t);
    let after = n - 1 + sending::one_if(on);
    if records::PACKETS < after {
        return Err(Refusal::TooManyPackets);
    }
    write_source(t, i, p.session, d);
    Ok(())
}

// A packet reaches its destination.
fn at_destination(t: &mut [u64; 9153], i: usize, p: Packet) -> Result<(), Refusal>
    requires { (i < count_of t.old) × PacketInRange p }
    ensures { ended result t.new ≡ at_destination_of t.old i p }
{
    let kind = p.kind;
    let on = ends::destination_step(kind);
    let n = table::count(t);
    let after = n - 1 + sending::one_if(on);
    if records::PACKETS < after {
        return Err(Refusal::TooManyPackets);
    }
    table::remove(t, i);
    sending::send_on(t, p.session, p.hop, on);
    Ok(())
}

// A packet arrives where its hop says.
fn arrive(t: &mut [u64; 9153], i: usize, p: Packet) -> Result<(), Refusal>
    requires { (i < count_of t.old) × PacketInRange p }
    ensures { ended result t.new ≡ arrive_of t.old i p }
{
    if p.hop == 0 {
        return at_source(t, i, p);
    }
    let n = table::hops_at(t, p.session as usize);
    if n < p.hop as usize {
        return at_destination(t, i, p);
    }
    let e = table::stop_at(t, p.session as usize, (p.hop - 1) as usize);
    at_link(t, i, p, e)
}

// Deliver the packet at a position.
fn deliver(t: &mut [u64; 9153], i: usize) -> Result<(), Refusal>
    ensures { ended result t.new ≡ deliver_of t.old i }
{
    let n = table::count(t);
    if n <= i {
        return Err(Refusal::BadPosition);
    }
    if !sending::in_turn(t, i) {
        return Err(Refusal::BadPosition);
    }
    let p = table::packet_at(t, i);
    arrive(t, i, p)
}

// LINKS AND SESSIONS --------------------------------------------------------------------------------------------------

// Whether link e is declared.
fn is_declared(t: &[u64; 9153], e: usize) -> bool
    requires { e < 64 }
    ensures { result ≡ declared_in t.now e }
{
    let l = table::link_at(t, e);
    0 < l.capacity
}

// Declare a link.
fn declare(t: &mut [u64; 9153], e: u32, capacity: u64) -> Result<(), Refusal>
    requires { e < 64 }
    ensures { ended result t.new ≡ declare_of t.old e capacity }
{
    if is_declared(t, e as usize) {
        return Err(Refusal::AlreadyThere);
    }
    let l = Link {
        capacity: capacity,
        r: 0,
        f: 0,
    };
    table::put_link(t, e as usize, l);
    Ok(())
}

// Whether a byte of a path is a declared link.
fn byte_declared(t: &[u64; 9153], e: usize) -> bool
    ensures { result ≡ ltb e link_limit && declared_in t.now e }
{
    e < 64 && is_declared(t, e)
}

// Whether all n links of a path are declared.
fn path_declared(t: &[u64; 9153], s: &[u8], at: usize, n: usize) -> bool
    requires { (n ≤ 8) × (at + 8 ≤ length s.now) }
    ensures { result ≡ path_declared_in t.now s.now at n }
{
    s[at..at + n]
        .iter()
        .all(|e| byte_declared(t, usize::from(*e)))
}

// Whether a source's step has room for what it sends.
fn has_room(t: &[u64; 9153], on: Option<Kind>) -> bool
    ensures { result ≡ not (ltb packet_limit (count_of t.now + one_if on)) }
{
    let n = table::count(t);
    n + sending::one_if(on) <= records::PACKETS
}

// A session's source changes and sends.
fn source_sends(t: &mut [u64; 9153], s: u32, d: SourceDid) -> Result<(), Refusal>
    requires { s < 32 }
    ensures { ended result t.new ≡ source_sends t.old t.old s d }
{
    let source = d.source;
    let on = d.on;
    if !has_room(t, on) {
        return Err(Refusal::TooManyPackets);
    }
    table::put_source(t, s as usize, source);
    sending::send_on(t, s, 0, on);
    Ok(())
}

// A session's path, its source, and what it sends.
fn write_join(t: &mut [u64; 9153], s: &[u8], x: SessionRecord, d: SourceDid)
    requires { (x.session < 32) × (x.path + 8 ≤ length s.now) }
    ensures { t.new ≡ send_on_of (put_source (put_hops (put_path t.old x.session s.now x.path) x.session x.size) x.session d.source) x.session 0 d.on }
{
    let source = d.source;
    let on = d.on;
    let i = x.session as usize;
    table::put_path(t, i, s, x.path);
    table::put_hops(t, i, x.size);
    table::put_source(t, i, source);
    sending::send_on(t, x.session, 0, on);
}

// A session joins.
fn join(t: &mut [u64; 9153], s: &[u8], x: SessionRecord) -> Result<(), Refusal>
    requires { (x.session < 32) × (x.size ≤ 8) × (x.path + 8 ≤ length s.now) }
    ensures { ended result t.new ≡ join_of s.now t.old x.session x.access x.maximum x.size x.path }
{
    let z = table::source_at(t, x.session as usize);
    if z.active {
        return Err(Refusal::AlreadyThere);
    }
    if records::above_line(x.access, x.maximum) {
        return Err(Refusal::AboveLine);
    }
    if !path_declared(t, s, x.path, x.size) {
        return Err(Refusal::UndeclaredLink);
    }
    let count = table::count(t);
    if !sending::none_of(t, x.session, count) {
        return Err(Refusal::StillLeaving);
    }
    let d = ends::joining(x.access, x.maximum);
    let on = d.on;
    if !has_room(t, on) {
        return Err(Refusal::TooManyPackets);
    }
    write_join(t, s, x, d);
    Ok(())
}

// A session leaves.
fn leave(t: &mut [u64; 9153], x: u32) -> Result<(), Refusal>
    requires { x < 32 }
    ensures { ended result t.new ≡ leave_of t.old x }
{
    let z = table::source_at(t, x as usize);
    if !z.active {
        return Err(Refusal::NotActive);
    }
    let d = ends::leaving(z);
    source_sends(t, x, d)
}

// A session changes its maximum.
fn change(t: &mut [u64; 9153], x: u32, maximum: u64) -> Result<(), Refusal>
    requires { x < 32 }
    ensures { ended result t.new ≡ change_of t.old x maximum }
{
    let z = table::source_at(t, x as usize);
    if !z.active {
        return Err(Refusal::NotActive);
    }
    if records::above_line(z.access, maximum) {
        return Err(Refusal::AboveLine);
    }
    let d = ends::changing(z, maximum);
    source_sends(t, x, d)
}

// A RECORD ------------------------------------------------------------------------------------------------------------

// What a record does, and whether it is taken: refusals 7 to 13 and 16.
pub fn event(t: &mut [u64; 9153], s: &[u8], x: Record) -> Result<(), Refusal>
    requires { RecordOk s.now x }
    ensures exact { ended result t.new ≡ event_of s.now t.old x }
    ensures said { verdict_number result ≡ verdict_number (event_of s.now t.old x).verdict }
{
    match x {
        Record::Link { link, capacity } => declare(t, link, capacity),
        Record::Session(x) => join(t, s, x),
        Record::Leave { session } => leave(t, session),
        Record::Change { session, maximum } => change(t, session, maximum),
        Record::Deliver { position } => deliver(t, position),
    }
}
