// 01, refusal 14: the test of a table that is handed in. Each session, each packet and each link is looked at once, and of a link only the entries of
// the sessions that it holds.
#![tactic(auto)]

ghost use Rattle.std.specs.Prelude.{true, ◌≡◌, ◌≤◌, ◌<◌};
ghost use Rattle.std.specs.Int.Bits.{bit_or};
ghost use Rattle.records.specs.Format.{all};
ghost use Rattle.table.specs.Words.{count_of, link_of};
ghost use Rattle.handed.specs.Handed.{hop_on_path, leave_ahead, leave_to_come, passes14_of, source_in_range, sources_in_range, sum_fits};
ghost use Rattle.handed.specs.OnceOver.{link_passes, member_passes, packet_passes, path_passes, row_passes, session_passes};

// A SESSION: ITS WORDS AND ITS PATH -----------------------------------------------------------------------------------

// "A field outside its range, a rate not in lowest terms"; 02, §1: no maximum above its access rate. An active session has a path.
#[tactic(auto, unfolding(crate::specs::Handed::has_joined, crate::specs::Handed::source_in_range))]
fn source_in_range(t: &[u64; 9153], s: usize) -> bool
    requires { s < 32 }
    ensures { result ≡ source_in_range t.now s }
{
    if !ranges::standing_fits(t, s) {
        return false;
    }
    if 0 < table::hops_at(t, s) {
        ranges::source_fits(t, s)
    } else {
        !table::active_at(t, s)
    }
}

// "A path over an undeclared link or over one twice". The links seen so far are a word, to which each turn adds: no chain says more plainly what stays.
fn path_passes(t: &[u64; 9153], s: usize) -> bool
    requires { s < 32 }
    ensures { result ≡ path_passes t.now s }
{
    let n = table::hops_at(t, s);
    let mut seen: u64 = 0;
    for i in 0..n {
        let e = table::stop_at(t, s, i);
        let l = table::link_at(t, e);
        if l.capacity == 0 {
            return false;
        }
        if sessions::has(seen, e as u32) {
            return false;
        }
        seen = sessions::put(seen, e as u32);
    }
    true
}

#[tactic(auto, unfolding(crate::specs::OnceOver::session_passes))]
fn session_passes(t: &[u64; 9153], s: usize) -> bool
    requires { s < 32 }
    ensures { result ≡ session_passes t.now s }
{
    source_in_range(t, s) && path_passes(t, s)
}

fn sessions_pass(t: &[u64; 9153]) -> bool
    ensures { result ≡ all 32 (session_passes t.now) }
{
    (0..32).all(|s| session_passes(t, s))
}

// A PACKET: ITS WORDS, ITS PATH AND ITS WAY ---------------------------------------------------------------------------

fn hop_on_path(n: u32, down: bool, h: u32) -> bool
    requires { n ≤ 8 }
    ensures { result ≡ hop_on_path n down h }
{
    if down { 0 < h && h <= n + 1 } else { h <= n }
}

// Besides its words: "a packet off its path or going the way its kind never goes".
#[tactic(auto, using(table::proofs::InRange::hops_most, table::proofs::InRange::session_below), unfolding(crate::specs::Handed::has_joined, crate::specs::Handed::packet_on_its_way, crate::specs::Handed::packet_on_path, crate::specs::OnceOver::packet_passes))]
fn packet_passes(t: &[u64; 9153], i: usize) -> bool
    requires { i < 256 }
    ensures { result ≡ packet_passes t.now i }
{
    if !ranges::packet_fits(t, i) {
        return false;
    }
    let p = table::packet_at(t, i);
    let n = table::hops_at(t, p.session as usize);
    0 < n
        && hop_on_path(n as u32, p.down, p.hop)
        && tasks::same_way(p.down, tasks::goes_down(p.kind))
}

fn packets_pass(t: &[u64; 9153]) -> bool
    ensures { result ≡ all (count_of t.now) (packet_passes t.now) }
{
    (0..table::count(t)).all(|i| packet_passes(t, i))
}

// A LINK: ITS WORDS, THE ENTRIES THAT IT HOLDS, AND THEIR SUM ---------------------------------------------------------

// The packet at place i is a Leave of session s that hop h is still to see.
#[tactic(auto, unfolding(crate::specs::Handed::leave_ahead))]
fn leave_ahead(t: &[u64; 9153], s: usize, h: u32, i: usize) -> bool
    requires { i < 256 }
    ensures { result ≡ leave_ahead t.now s h i }
{
    let p = table::packet_at(t, i);
    p.session as usize == s && tasks::is_leave(p.kind) && p.hop <= h
}

fn leave_to_come(t: &[u64; 9153], s: usize, h: u32) -> bool
    ensures { result ≡ leave_to_come t.now s h }
{
    (0..table::count(t)).any(|i| leave_ahead(t, s, h, i))
}

// "An entry off its session's path"; its words; "an entry of a session that is neither active nor has a Leave still to reach that link".
#[tactic(auto, using(crate::proofs::Clauses::sources_means, crate::proofs::Holding::path_of_hop), unfolding(crate::specs::OnceOver::member_passes))]
fn member_passes(t: &[u64; 9153], e: usize, s: usize) -> bool
    requires { (e < 64) × (s < 32) × (sources_in_range t.now ≡ true) }
    ensures { result ≡ member_passes t.now e s }
{
    let Some(h) = table::hop_of(t, s, e) else {
        return false;
    };
    ranges::entry_fits(t, e, s) && (table::active_at(t, s) || leave_to_come(t, s, h))
}

// The sessions that link e holds, by rising number.
fn row_passes(t: &[u64; 9153], e: usize, held: u32) -> bool
    requires { (e < 64) × (held ≡ bit_or (link_of t.now e).r (link_of t.now e).f) × (sources_in_range t.now ≡ true) }
    ensures { result ≡ row_passes t.now e }
{
    sessions::each(held).all(|s| member_passes(t, e, s as usize))
}

// "A link whose F sums past C or whose sums or B meet 12".
fn sum_fits(t: &[u64; 9153], e: usize) -> bool
    requires { e < 64 }
    ensures { result ≡ sum_fits t.now e }
{
    let total = totals::sum_at(t, e);
    if links::is_past_c(total) {
        return false;
    }
    let l = table::link_at(t, e);
    totals::is_bound_fine(l.capacity, sessions::size(l.r), total)
}

// "A session in both R and F of a link": no word has a bit of the other. Of a link that holds nobody there is nothing else to ask.
#[tactic(auto, using(crate::proofs::Holding::words_held), unfolding(crate::specs::OnceOver::link_passes))]
fn link_passes(t: &[u64; 9153], e: usize) -> bool
    requires { (e < 64) × (sources_in_range t.now ≡ true) }
    ensures { result ≡ link_passes t.now e }
{
    if !ranges::link_fits(t, e) {
        return false;
    }
    let l = table::link_at(t, e);
    let held = l.r | l.f;
    held == 0 || (l.r & l.f == 0 && row_passes(t, e, held) && sum_fits(t, e))
}

fn links_pass(t: &[u64; 9153]) -> bool
    requires { sources_in_range t.now ≡ true }
    ensures { result ≡ all 64 (link_passes t.now) }
{
    (0..64).all(|e| link_passes(t, e))
}

// THE WHOLE TEST ------------------------------------------------------------------------------------------------------

// Whether refusal 14 does not meet the table.
#[tactic(auto, using(crate::proofs::OnceOver::sessions_in_range))]
pub fn passes_14(t: &[u64; 9153]) -> bool
    ensures { result ≡ passes14_of t.now }
{
    ranges::count_fits(t) && sessions_pass(t) && packets_pass(t) && links_pass(t)
}
