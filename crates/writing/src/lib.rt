// The records of a set of links and sessions (02, §3), written into a lent slice: links, then sessions, by rising number.
#![tactic(auto)]

ghost use Rattle.std.specs.Prelude.{◌≡◌, ℕ, ◌+◌, ◌*◌, ◌≤◌, ◌<◌, count_by, get_or, length, nat_lt, slice_range};
ghost use Rattle.std.proofs.lemmas.List.Edits.{sets};
ghost use Rattle.fairness.specs.Figure1.{values};
ghost use Rattle.search.specs.Crossing.{byte_at};
ghost use Rattle.writing.specs.Writing.{bytes4, link_record, link_records, session_from, session_records};
ghost use Rattle.writing.specs.Written.{written_of};

use declarations::Declared;
use records::{Refusal, Refused};

// A number below 2^32 in four bytes from a place on, the highest first.
fn put_number(out: &mut [u8], at: usize, n: u64)
    requires { (at + 4 ≤ length out.old) × (n < 4294967296) }
    ensures { out.new ≡ sets out.old at (bytes4 n) }
{
    let bytes = (n as u32).to_be_bytes();
    out[at..at + 4].copy_from_slice(&bytes);
}

// A link's record from a place on.
fn put_link(out: &mut [u8], at: usize, e: u32, capacity: u64)
    requires { (at + 6 ≤ length out.old) × (e < 64) × (capacity < 4294967296) }
    ensures { out.new ≡ sets out.old at (link_record e capacity) }
{
    out[at] = 1;
    out[at + 1] = e as u8;
    put_number(out, at + 2, capacity);
}

// The eight link bytes of session t from a place on.
fn put_path(out: &mut [u8], at: usize, path: &[u8; 256], t: u32)
    requires { (at + 8 ≤ length out.old) × (t < 32) }
    ensures { out.new ≡ sets out.old at (values 0 8 (byte_at path.now t)) }
{
    let from = t as usize * 8;
    out[at..at + 8].copy_from_slice(&path[from..from + 8]);
}

// How many bytes of the path of session t are links.
fn path_size(path: &[u8; 256], t: u32) -> usize
    requires { t < 32 }
    ensures { result ≡ count_by (λ e. nat_lt e 64) (slice_range path.now (t * 8) (t * 8 + 8)) }
{
    let from = t as usize * 8;
    path[from..from + 8].iter().filter(|e| **e < 64).count()
}

// The record of session t from a place on.
fn put_session(out: &mut [u8], at: usize, d: &Declared, t: u32)
    requires { (at + 19 ≤ length out.old) × (t < 32) × (get_or d.now.access t 0 < 4294967296) × (get_or d.now.maximum t 0 < 4294967296) }
    ensures { out.new ≡ sets out.old at (session_from d.now.access d.now.maximum d.now.path t) }
{
    let i = t as usize;
    out[at] = 2;
    out[at + 1] = t as u8;
    put_number(out, at + 2, d.access[i]);
    put_number(out, at + 6, d.maximum[i]);
    out[at + 10] = path_size(&d.path, t) as u8;
    put_path(out, at + 11, &d.path, t);
}

// The records of the declared links from a place on, which may be behind all sessions, 608 bytes.
// The place is counted by hand: of what is written through `chunks_exact_mut` a proof knows the lengths and not the bytes.
fn put_links(out: &mut [u8], from: usize, d: &Declared)
    requires { (from ≤ 608) × (from + length (link_records d.now.links d.now.capacity) ≤ length out.old)
        × ((e : ℕ) → get_or d.now.capacity e 0 < 4294967296) }
    ensures { out.new ≡ sets out.old from (link_records d.now.links d.now.capacity) }
{
    let mut at = from;
    for e in sessions::each(d.links) {
        put_link(out, at, e, d.capacity[e as usize]);
        at = at + 6;
    }
}

// The records of the declared sessions from a place on, which may be behind all links, 384 bytes.
fn put_sessions(out: &mut [u8], from: usize, d: &Declared)
    requires { (from ≤ 384) × (from + length (session_records d.now.sessions d.now.access d.now.maximum d.now.path) ≤ length out.old)
        × ((t : ℕ) → get_or d.now.access t 0 < 4294967296) × ((t : ℕ) → get_or d.now.maximum t 0 < 4294967296) }
    ensures { out.new ≡ sets out.old from (session_records d.now.sessions d.now.access d.now.maximum d.now.path) }
{
    let mut at = from;
    for t in sessions::each(d.sessions) {
        put_session(out, at, d, t);
        at = at + 19;
    }
}

// Writes the records of a set, its rates below 2^32: links, then sessions, by rising number. Six bytes a link and nineteen a session, so 992 at most.
// The answer is how many bytes were written, or 17 where the slice is shorter, and then nothing is.
pub fn write(d: Declared, out: &mut [u8]) -> Result<usize, Refused>
    requires { ((e : ℕ) → get_or d.capacity e 0 < 4294967296) × ((t : ℕ) → get_or d.access t 0 < 4294967296) × ((t : ℕ) → get_or d.maximum t 0 < 4294967296) }
    ensures { (result ≡ (written_of d out.old).answer) × (out.new ≡ (written_of d out.old).bytes) }
{
    let links = sessions::size(d.links) as usize;
    let sessions = sessions::size(d.sessions) as usize;
    let link_bytes = links * 6;
    let session_bytes = sessions * 19;
    if out.len() < link_bytes + session_bytes {
        return Err(Refused {
            refusal: Refusal::ShorterThanOutput,
            place: 0,
        });
    }
    put_links(out, 0, &d);
    put_sessions(out, link_bytes, &d);
    Ok(link_bytes + session_bytes)
}
