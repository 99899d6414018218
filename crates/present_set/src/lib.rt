// The present set of a table: its links and active sessions as declarations, and the call that writes their records (02, §3).
#![tactic(auto)]

ghost use Rattle.std.specs.Prelude.{◌≡◌, ◌/◌, ◌%◌, ◌<◌, ltb};
ghost use Rattle.fairness.specs.Figure1.{values};
ghost use Rattle.table.specs.Words.{link_of, source_of};
ghost use Rattle.present_set.specs.Held.{declarations_in, path_byte, word_of};
ghost use Rattle.present_set.specs.Present.{Means, present_of};

use declarations::Declared;
use records::{Refusal, Refused};

// The declared links: those with a capacity.
fn links(t: &[u64; 9153]) -> u64
    ensures { result ≡ word_of 64 (λ e. ltb 0 (link_of t.now e).capacity) }
{
    (0..64).fold(0, |word, e| {
        if 0 < table::link_at(t, e).capacity {
            sessions::put(word, e as u32)
        } else {
            word
        }
    })
}

// The capacities, by link; 0 where it is not declared.
fn capacities(t: &[u64; 9153]) -> [u64; 64]
    ensures { result ≡ values 0 64 (λ e. (link_of t.now e).capacity) }
{
    std::array::from_fn(|e| table::link_at(t, e).capacity)
}

// The active sessions.
fn active(t: &[u64; 9153]) -> u32
    ensures { result ≡ word_of 32 (λ s. (source_of t.now s).active) }
{
    (0..32).fold(0, |word, s| {
        if table::active_at(t, s) {
            sessions::put(word, s as u32)
        } else {
            word
        }
    })
}

// The access rates, by session.
fn accesses(t: &[u64; 9153]) -> [u64; 32]
    ensures { result ≡ values 0 32 (λ s. (source_of t.now s).access) }
{
    std::array::from_fn(|s| table::source_at(t, s).access)
}

// The present maxima, by session; 0 where there is none.
fn maxima(t: &[u64; 9153]) -> [u64; 32]
    ensures { result ≡ values 0 32 (λ s. (source_of t.now s).maximum) }
{
    std::array::from_fn(|s| table::source_at(t, s).maximum)
}

// Byte h of the path of session s, as a record has it.
#[tactic(auto, using(table::proofs::InRange::stop_below), unfolding(crate::specs::Held::path_byte))]
fn path_byte(t: &[u64; 9153], s: usize, h: usize) -> u8
    requires { (s < 32) × (h < 8) }
    ensures { result ≡ path_byte t.now s h }
{
    if h < table::hops_at(t, s) {
        table::stop_at(t, s, h) as u8
    } else {
        255
    }
}

// The paths, eight bytes for each session.
fn paths(t: &[u64; 9153]) -> [u8; 256]
    ensures { result ≡ values 0 256 (λ i. path_byte t.now (i / 8) (i % 8)) }
{
    std::array::from_fn(|i| path_byte(t, i / 8, i % 8))
}

// The links and the active sessions that a table holds, as declarations.
fn held(t: &[u64; 9153]) -> Declared
    ensures { result ≡ declarations_in t.now }
{
    Declared {
        links: links(t),
        capacity: capacities(t),
        sessions: active(t),
        access: accesses(t),
        maximum: maxima(t),
        path: paths(t),
    }
}

// Writes the records of the links and active sessions that a table holds: 14, then 17. At most 992 bytes.
pub fn write_records(t: &[u64; 9153], out: &mut [u8]) -> Result<usize, Refused>
    ensures exact { (result ≡ (present_of t.now out.old).answer) × (out.new ≡ (present_of t.now out.old).bytes) }
    ensures present { Means t.now out.old out.new result }
{
    if !handed::passes_14(t) {
        return Err(Refused {
            refusal: Refusal::BadTable,
            place: 0,
        });
    }
    writing::write(held(t), out)
}
