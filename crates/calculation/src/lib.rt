// The direct calculation of every session's max-min fair rate (01, "The direct calculation"): the entry point `calculate`.
#![tactic(auto)]

ghost use Rattle.std.specs.Prelude.{Ok, ◌≡◌, ℕ, ◌≤◌, ◌<◌, find, get_or, length};
ghost use Rattle.fractions.specs.Fraction.{max_rate};
ghost use Rattle.filling.specs.Lines.{Ranges, SessionNumbers};
ghost use Rattle.calculation.specs.Binding.{binding_by_last, bottleneck_by_last, path_bytes};
ghost use Rattle.calculation.specs.Calculating.{PlacesBind, Ordered, calculate_of, done_of, said_of, written};
ghost use Rattle.calculation.specs.Results.{Found};

use declarations::Declared;
use filling::Fixed;
use fractions::Rate;
use records::{Refusal, Refused};

// What stands in the answer for a session whose binding place is its own limit.
pub const OWN: u64 = 64;

// The lent answer slices have a place for each session number.
pub const PLACES: usize = 32;

// Which links and sessions are declared, where all records were taken.
#[derive(Clone, Copy, Debug, PartialEq, Eq)]
pub struct Calculated {
    pub links: u64,
    pub sessions: u32,
}

// For each session number a rate and a binding place: a link's number, or 64 for "own".
#[derive(Clone, Copy)]
pub struct Results {
    pub nums: [u64; 32],
    pub dens: [u64; 32],
    pub places: [u64; 32],
}

// Whether a path byte is a link that is a bottleneck of a session on it with this rate: nothing is left of it, and the session that was fixed last there,
// which has the highest rate, has no more.
fn is_bottleneck(z: &Fixed, e: u8, rate: u64) -> bool
    requires { SessionNumbers z.now.last }
    ensures { result ≡ bottleneck_by_last z.now.rate z.now.room z.now.last rate e }
{
    if 64 <= e {
        return false;
    }
    let i = e as usize;
    z.room[i] == 0 && z.rate[z.last[i] as usize] <= rate
}

// The eight path bytes of session t.
fn path_of(d: &Declared, t: u32) -> &[u8]
    requires { t < 32 }
    ensures { result.now ≡ path_bytes d.now.path t }
{
    let from = t as usize * 8;
    &d.path[from..from + 8]
}

// The first link of the path of session t that is a bottleneck of it. There is always one where its rate is below D.
fn first_bottleneck(d: &Declared, z: &Fixed, t: u32) -> Option<u8>
    requires { (t < 32) × SessionNumbers z.now.last }
    ensures { result ≡ find (bottleneck_by_last z.now.rate z.now.room z.now.last (get_or z.now.rate t 0)) (path_bytes d.now.path t) }
{
    let rate = z.rate[t as usize];
    path_of(d, t)
        .iter()
        .copied()
        .find(|e| is_bottleneck(z, *e, rate))
}

// The binding place of session t: "own" if its rate equals D, else the first link of its path that is a bottleneck of it (02, §2).
fn binding(d: &Declared, z: &Fixed, limit: u64, t: u32) -> u64
    requires { (t < 32) × SessionNumbers z.now.last }
    ensures { result ≡ binding_by_last d.now.path z.now.rate z.now.room z.now.last limit t }
{
    if z.rate[t as usize] == limit {
        return OWN;
    }
    first_bottleneck(d, z, t).map_or(OWN, u64::from)
}

// The rates in lowest terms and the binding places of the declared sessions.
fn find(d: &Declared, z: &Fixed) -> Results
    requires { (0 < z.now.den) × (z.now.den ≤ 118098) × ((t : ℕ) → t < 32 → get_or d.now.access t 0 ≤ max_rate) × SessionNumbers z.now.last }
    ensures { Found d.now z.now result }
{
    let mut out = Results {
        nums: [0; 32],
        dens: [0; 32],
        places: [0; 32],
    };
    for t in sessions::each(d.sessions) {
        let i = t as usize;
        let lowest = Rate::lowest(z.rate[i], z.den);
        let limit = declarations::own_limit(d.access[i], d.maximum[i]);
        out.nums[i] = lowest.num;
        out.dens[i] = lowest.den;
        out.places[i] = binding(d, z, z.den * limit, t);
    }
    out
}

// Writes the places of the sessions of a word, and no others.
fn write(w: u32, values: &[u64; 32], out: &mut [u64])
    requires { 32 ≤ length out.old }
    ensures { out.new ≡ written w values.now out.old }
{
    for t in sessions::each(w) {
        let i = t as usize;
        out[i] = values[i];
    }
}

// The answer for declarations that were all taken: the rates, the binding places, and what is declared.
fn answer(d: Declared, nums: &mut [u64], dens: &mut [u64], places: &mut [u64]) -> Calculated
    requires { Ranges d × (32 ≤ length nums.old) × (32 ≤ length dens.old) × (32 ≤ length places.old) }
    ensures { (Ok result ≡ (done_of d nums.old dens.old places.old).answer)
        × (nums.new ≡ (done_of d nums.old dens.old places.old).nums)
        × (dens.new ≡ (done_of d nums.old dens.old places.old).dens)
        × (places.new ≡ (done_of d nums.old dens.old places.old).places) }
{
    let z = filling::filled(d);
    let v = find(&d, &z);
    write(d.sessions, &v.nums, nums);
    write(d.sessions, &v.dens, dens);
    write(d.sessions, &v.places, places);
    Calculated {
        links: d.links,
        sessions: d.sessions,
    }
}

// Every declared session's max-min fair rate, as a numerator and a denominator, and its binding place.
pub fn calculate(
    s: &[u8],
    nums: &mut [u64],
    dens: &mut [u64],
    places: &mut [u64],
) -> Result<Calculated, Refused>
    ensures exact { (result ≡ (calculate_of s.now nums.old dens.old places.old).answer)
        × (nums.new ≡ (calculate_of s.now nums.old dens.old places.old).nums)
        × (dens.new ≡ (calculate_of s.now nums.old dens.old places.old).dens)
        × (places.new ≡ (calculate_of s.now nums.old dens.old places.old).places) }
    ensures said { said_of result ≡ said_of (calculate_of s.now nums.old dens.old places.old).answer }
    ensures ordered { Ordered s.now result nums.new dens.new }
    ensures binds { PlacesBind s.now result nums.new dens.new places.new }
{
    if nums.len() < PLACES || dens.len() < PLACES || places.len() < PLACES {
        return Err(Refused {
            refusal: Refusal::ShortSlice,
            place: 0,
        });
    }
    if records::INPUT < s.len() {
        return Err(Refused {
            refusal: Refusal::TooLong,
            place: 0,
        });
    }
    let read = declarations::declare_all(s);
    read.end?;
    Ok(answer(read.declared, nums, dens, places))
}
