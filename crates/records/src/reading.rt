// One record read at a place of an input: refusals 2 to 6 (01, "Records").
ghost use Rattle.std.specs.Prelude.{◌≡◌, ◌+◌, ◌≤◌, ◌<◌, get_or, length};
ghost use Rattle.records.specs.Format.{be2, be4, takes_of, body_of, rate_ok, link_at, session_at, leave_at, change_at, deliver_at, body_at, size_at, read_at};
ghost use Rattle.records.specs.Run.{read_number};

use super::paths::path_ok;
use super::{BODIES, Call, LINKS, RATE, Record, Refusal, SESSIONS, SessionRecord};

// Whether the call takes records of this kind. Kinds stay the bytes of 01, as the definitions have them: an enum would only add a number for each and a
// conversion that refuses.
fn takes(call: Call, kind: u8) -> bool
    ensures { result ≡ takes_of call kind }
{
    match call {
        Call::Calculation => matches!(kind, 1 | 2),
        Call::Machine => matches!(kind, 1..=5),
    }
}

// The length of a body: 0 where no kind has the number.
fn body(kind: u8) -> usize
    ensures { (result ≡ body_of kind) × (result ≤ 18) }
{
    BODIES.get(usize::from(kind)).copied().unwrap_or(0)
}

// Two bytes, the highest first.
fn number2(s: &[u8], at: usize) -> u16
    requires { at + 2 ≤ length s.now }
    ensures { result ≡ be2 s.now at }
{
    u16::from_be_bytes([s[at], s[at + 1]])
}

// Four bytes, the highest first.
fn number4(s: &[u8], at: usize) -> u64
    requires { at + 4 ≤ length s.now }
    ensures { result ≡ be4 s.now at }
{
    u64::from(u32::from_be_bytes([s[at], s[at + 1], s[at + 2], s[at + 3]]))
}

// Whether a capacity or an access rate is one.
fn rate_ok(n: u64) -> bool
    ensures { result ≡ rate_ok n }
{
    0 < n && n <= RATE
}

// Kind 1.
fn link_at(s: &[u8], at: usize) -> Result<Record, Refusal>
    requires { at + 6 ≤ length s.now }
    ensures { result ≡ link_at s.now at }
{
    let link = s[at + 1];
    let capacity = number4(s, at + 2);
    if LINKS <= link {
        return Err(Refusal::NumberTooLarge);
    }
    if !rate_ok(capacity) {
        return Err(Refusal::RateOutOfRange);
    }
    Ok(Record::Link {
        link: u32::from(link),
        capacity,
    })
}

// Kind 2.
fn session_at(s: &[u8], at: usize) -> Result<Record, Refusal>
    requires { at + 19 ≤ length s.now }
    ensures { result ≡ session_at s.now at }
{
    let session = s[at + 1];
    let access = number4(s, at + 2);
    let maximum = number4(s, at + 6);
    let size = usize::from(s[at + 10]);
    let path = at + 11;
    if SESSIONS <= session {
        return Err(Refusal::NumberTooLarge);
    }
    if !rate_ok(access) {
        return Err(Refusal::RateOutOfRange);
    }
    if RATE < maximum {
        return Err(Refusal::RateOutOfRange);
    }
    if !path_ok(s, path, size) {
        return Err(Refusal::BadPath);
    }
    Ok(Record::Session(SessionRecord {
        session: u32::from(session),
        access,
        maximum,
        size,
        path,
    }))
}

// Kind 3.
fn leave_at(s: &[u8], at: usize) -> Result<Record, Refusal>
    requires { at + 2 ≤ length s.now }
    ensures { result ≡ leave_at s.now at }
{
    let session = s[at + 1];
    if SESSIONS <= session {
        return Err(Refusal::NumberTooLarge);
    }
    Ok(Record::Leave {
        session: u32::from(session),
    })
}

// Kind 4.
fn change_at(s: &[u8], at: usize) -> Result<Record, Refusal>
    requires { at + 6 ≤ length s.now }
    ensures { result ≡ change_at s.now at }
{
    let session = s[at + 1];
    let maximum = number4(s, at + 2);
    if SESSIONS <= session {
        return Err(Refusal::NumberTooLarge);
    }
    if RATE < maximum {
        return Err(Refusal::RateOutOfRange);
    }
    Ok(Record::Change {
        session: u32::from(session),
        maximum,
    })
}

// Kind 5.
fn deliver_at(s: &[u8], at: usize) -> Result<Record, Refusal>
    requires { at + 3 ≤ length s.now }
    ensures { result ≡ deliver_at s.now at }
{
    let position = usize::from(number2(s, at + 1));
    Ok(Record::Deliver { position })
}

// A whole record, by its kind.
fn body_at(s: &[u8], at: usize, kind: u8) -> Result<Record, Refusal>
    requires { (0 < kind) × (kind ≤ 5) × (kind ≡ get_or s.now at 0) × (at + 1 + body_of kind ≤ length s.now) }
    ensures { result ≡ body_at s.now at }
{
    match kind {
        1 => link_at(s, at),
        2 => session_at(s, at),
        3 => leave_at(s, at),
        4 => change_at(s, at),
        _ => deliver_at(s, at),
    }
}

// The record at a place: refusals 2 to 6 in number order. Past the end stands no kind, and so none that is taken.
pub fn read_at(call: Call, s: &[u8], at: usize) -> Result<Record, Refusal>
    ensures exact { result ≡ read_at call s.now at }
    ensures said { read_number result ≡ read_number (read_at call s.now at) }
{
    if s.len() <= at {
        return Err(Refusal::KindNotTaken);
    }
    let kind = s[at];
    if !takes(call, kind) {
        return Err(Refusal::KindNotTaken);
    }
    if s.len() - at < 1 + body(kind) {
        return Err(Refusal::CutOff);
    }
    body_at(s, at, kind)
}

// How many bytes the record at a place has: its kind, and the body of that kind.
pub fn size_at(s: &[u8], at: usize) -> usize
    ensures { (result ≡ size_at s.now at) × (0 < result) × (result ≤ 19) }
{
    if s.len() <= at {
        return 1;
    }
    1 + body(s[at])
}
