// A link and its entries that the caller keeps and lends: the F check on a slice of entries, and the step at a link with the link's own record lent.
// Each calls a function on values, and puts what it answers back where it stood (01, "The tasks").
#![tactic(auto)]

ghost use Rattle.std.specs.Prelude.{Result, ◌≡◌, replicate};
ghost use Rattle.records.specs.declared.Refusal.{Refusal};
ghost use Rattle.links.specs.declared.Place.{Place};
ghost use Rattle.fractions.specs.Fraction.{zero_of};
ghost use Rattle.links.specs.Links.{entry};
ghost use Rattle.links.specs.declared.Mu.TheVariants as mu;
ghost use Rattle.lent.specs.Lent.{answer_number, apart, check_of, f_check_of, fits, in_range, kind_fits, lent_of, rates_fit, step_fits, step_link_of, step_of, Works};

use fractions::Rate;
use links::{Bound, Entry, Link, Mu, Place};
use records::Refusal;
use tasks::{Burst, Kind};

// What the F check gives: the sessions that are sent an Update, and the link's B.
#[derive(Clone, Copy)]
pub struct Checked {
    pub to: u32,
    pub bound: Bound,
}

// What the step gives: what is sent, first to the sessions of a word by rising number, then of the packet's own, if anything.
#[derive(Clone, Copy)]
pub struct Sent {
    pub burst: Burst,
    pub to: u32,
    pub on: Option<Kind>,
}

// A link and its entries after a call, with its answer: what it gives, or why nothing was done.
#[derive(Clone, Copy)]
pub struct After<A> {
    pub link: Link,
    pub entries: [Entry; 32],
    pub answer: Result<A, Refusal>,
}

// The entries of a link that holds no session.
pub fn no_entries() -> [Entry; 32]
    ensures { result ≡ replicate 32 (entry mu.Idle zero_of) }
{
    [Entry {
        mu: Mu::Idle,
        rate: Rate::ZERO,
    }; 32]
}

// ON VALUES -----------------------------------------------------------------------------------------------------------

// Whether each of the 32 rates is one within the limits, in lowest terms.
fn rates_fit(entries: [Entry; 32]) -> bool
    ensures { result ≡ rates_fit entries }
{
    entries.iter().all(|x| x.rate.is_rate())
}

// Whether the capacity is within its limit too.
#[tactic(auto, unfolding(crate::specs::Lent::in_range))]
fn in_range(p: Place) -> bool
    ensures { result ≡ in_range p }
{
    p.link.capacity <= Rate::MAX && rates_fit(p.entries)
}

// Whether no session is in both R and F.
fn apart(link: Link) -> bool
    ensures { result ≡ apart link }
{
    link.r & link.f == 0
}

// Whether, besides, F sums to no more than the capacity.
#[tactic(auto, using(crate::proofs::Fitting::range_workable), unfolding(crate::specs::Lent::fits))]
fn fits(p: Place) -> bool
    ensures { result ≡ fits p }
{
    in_range(p) && apart(p.link) && !links::is_past_c(links::sum_of_f(p))
}

// Whether the rate that a packet carries is one.
fn kind_fits(kind: Kind) -> bool
    ensures { result ≡ kind_fits kind }
{
    match kind {
        Kind::Join(x, _) | Kind::Probe(x, _) | Kind::Response(_, x, _) => x.is_rate(),
        _ => true,
    }
}

// The F check on values: 14, 12, or the link after it.
#[tactic(auto, using(crate::proofs::Fitting::fits_workable), unfolding(crate::specs::Lent::check_of))]
fn check(p: Place) -> Result<(Place, Checked), Refusal>
    ensures { result ≡ check_of p }
{
    if !fits(p) {
        return Err(Refusal::BadTable);
    }
    let q = links::process_new_restricted(p);
    if !links::is_fine(q.bound) {
        return Err(Refusal::TooFine);
    }
    Ok((
        q.place,
        Checked {
            to: q.to,
            bound: q.bound,
        },
    ))
}

// Whether the packet, the link and its entries fit, and the link's own sums and B are fine.
#[tactic(auto, using(crate::proofs::Fitting::fits_workable), unfolding(crate::specs::Lent::step_fits))]
fn step_fits(s: u32, kind: Kind, p: Place) -> bool
    ensures { result ≡ step_fits s kind p }
{
    s < 32 && kind_fits(kind) && fits(p) && links::is_fine(links::bottleneck_rate(p))
}

// The step on values, likewise.
#[tactic(auto, using(crate::proofs::Fitting::step_fits_all), unfolding(crate::specs::Lent::step_of))]
fn step(e: u32, s: u32, kind: Kind, p: Place) -> Result<(Place, Sent), Refusal>
    ensures { result ≡ step_of e s kind p }
{
    if !step_fits(s, kind, p) {
        return Err(Refusal::BadTable);
    }
    let d = tasks::link_step(e, s, kind, p);
    if !d.fine {
        return Err(Refusal::TooFine);
    }
    Ok((
        d.place,
        Sent {
            burst: d.burst,
            to: d.to,
            on: d.on,
        },
    ))
}

// LENT ----------------------------------------------------------------------------------------------------------------

// Works out f on a link and its entries that are lent, which are the first 32 places of the slice: what it gives stands where they stood, and where it
// refuses all is as it was.
#[tactic(auto, unfolding(crate::specs::Lent::lent_of))]
fn lend<A, F: Fn(Place) -> Result<(Place, A), Refusal>>(
    link: &mut Link,
    entries: &mut [Entry],
    f: F,
) -> Result<A, Refusal>
    requires { F.IsAlwaysCallable f }
    ensures { (of : Place → Result (Place × A) Refusal) → Works (F.post f) of
        → (result ≡ (lent_of of link.old entries.old).answer)
        × (link.new ≡ (lent_of of link.old entries.old).link)
        × (entries.new ≡ (lent_of of link.old entries.old).entries) }
{
    let Some(own) = entries.first_chunk_mut::<32>() else {
        return Err(Refusal::ShortSlice);
    };
    let before = Place {
        link: *link,
        entries: *own,
    };
    let (next, given) = f(before)?;
    own.copy_from_slice(&next.entries);
    *link = next.link;
    Ok(given)
}

// The F check (001, Figure 2, lines 5 to 10) on a link and its entries that are lent: those that return from F to R, and those that are set to wait
// for a probe, change where they stand. The entries are the first 32 places of the slice.
pub fn f_check(link: &mut Link, entries: &mut [Entry]) -> Result<Checked, Refusal>
    ensures { (result ≡ (f_check_of link.old entries.old).answer)
        × (answer_number result ≡ answer_number (f_check_of link.old entries.old).answer)
        × (link.new ≡ (f_check_of link.old entries.old).link)
        × (entries.new ≡ (f_check_of link.old entries.old).entries) }
{
    lend(link, entries, check)
}

// The step of link e for a packet of session s (001, Figure 2), with the link's own record and its entries lent and updated.
pub fn step_link(
    e: u32,
    s: u32,
    kind: Kind,
    link: &mut Link,
    entries: &mut [Entry],
) -> Result<Sent, Refusal>
    ensures { (result ≡ (step_link_of e s kind link.old entries.old).answer)
        × (answer_number result ≡ answer_number (step_link_of e s kind link.old entries.old).answer)
        × (link.new ≡ (step_link_of e s kind link.old entries.old).link)
        × (entries.new ≡ (step_link_of e s kind link.old entries.old).entries) }
{
    lend(link, entries, |p| step(e, s, kind, p))
}

// PLAIN PARAMETERS ----------------------------------------------------------------------------------------------------

// The F check through the lent form, with plain parameters: a caller of it lends nothing.
pub fn f_check_plain(mut link: Link, mut entries: [Entry; 32]) -> After<Checked>
    ensures { result ≡ f_check_of link entries }
{
    let answer = f_check(&mut link, &mut entries);
    After {
        link,
        entries,
        answer,
    }
}

// The step through the lent form, with plain parameters.
pub fn step_link_plain(
    e: u32,
    s: u32,
    kind: Kind,
    mut link: Link,
    mut entries: [Entry; 32],
) -> After<Sent>
    ensures { result ≡ step_link_of e s kind link entries }
{
    let answer = step_link(e, s, kind, &mut link, &mut entries);
    After {
        link,
        entries,
        answer,
    }
}
