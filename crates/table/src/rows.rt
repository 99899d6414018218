// Links and their entries.
ghost use Rattle.std.specs.Prelude.{◌≡◌, ◌<◌, length};
ghost use Rattle.links.specs.Links.{entry_at};
ghost use Rattle.table.specs.Words.{entry_of, link_of, place_of, put_entry, put_link, put_place, put_row, row_of};

use super::fields::{field, mu_code, mu_of};
use fractions::Rate;
use links::{Entry, Link, Mu, Place};

pub fn link_at(t: &[u64; 9153], e: usize) -> Link
    requires { e < 64 }
    ensures { result ≡ link_of t.now e }
{
    let a = e * 3;
    let capacity = field(t[a], Rate::MAX);
    let r = field(t[a + 1], 4294967295);
    let f = field(t[a + 2], 4294967295);
    Link {
        capacity,
        r: r as u32,
        f: f as u32,
    }
}

pub fn put_link(t: &mut [u64; 9153], e: usize, l: Link)
    requires { e < 64 }
    ensures { t.new ≡ put_link t.old e l }
{
    let a = e * 3;
    t[a] = l.capacity;
    t[a + 1] = l.r as u64;
    t[a + 2] = l.f as u64;
}

fn entry_at(t: &[u64; 9153], a: usize) -> Entry
    requires { a < 6336 }
    ensures { result ≡ entry_of t.now a }
{
    let mu = mu_of(t[a]);
    let rate = Rate::kept(t[a + 1], t[a + 2]);
    Entry { mu, rate }
}

// The entry of session s at link e.
pub fn entry_in(t: &[u64; 9153], e: usize, s: usize) -> Entry
    requires { (e < 64) × (s < 32) }
    ensures { result ≡ entry_at (place_of t.now e) s }
{
    entry_at(t, 192 + e * 96 + s * 3)
}

fn put_entry(t: &mut [u64; 9153], a: usize, x: Entry)
    requires { a < 6336 }
    ensures { t.new ≡ put_entry t.old a x }
{
    let mu = x.mu;
    let m = mu_code(mu);
    t[a] = m;
    t[a + 1] = x.rate.num;
    t[a + 2] = x.rate.den;
}

fn row_at(t: &[u64; 9153], e: usize) -> [Entry; 32]
    requires { e < 64 }
    ensures { result ≡ row_of t.now e }
{
    std::array::from_fn(|s| entry_at(t, 192 + e * 96 + s * 3))
}

fn put_row(t: &mut [u64; 9153], e: usize, entries: [Entry; 32])
    requires { e < 64 }
    ensures { t.new ≡ put_row t.old e entries }
{
    for (s, x) in entries.iter().enumerate() {
        put_entry(t, 192 + e * 96 + s * 3, *x);
    }
}

// A link with the entries of its 32 sessions.
pub fn place_at(t: &[u64; 9153], e: usize) -> Place
    requires { e < 64 }
    ensures { result ≡ place_of t.now e }
{
    let link = link_at(t, e);
    let entries = row_at(t, e);
    Place { link, entries }
}

pub fn put_place(t: &mut [u64; 9153], e: usize, p: Place)
    requires { e < 64 }
    ensures { t.new ≡ put_place t.old e p }
{
    let link = p.link;
    let entries = p.entries;
    put_link(t, e, link);
    put_row(t, e, entries);
}
