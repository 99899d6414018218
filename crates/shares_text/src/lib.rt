// What `shares` prints for an input (01, "Examples"): every session's max-min fair rate and its binding place, or the refusal.
#![tactic(auto)]

use std::io;

// How many links and sessions are declared.
fn print_header(rt: &impl Print, links: u64, sessions: u32) -> io::Result<()> {
    let declared = sessions::size(links);
    let active = sessions::size(sessions);
    println!(rt; "links {declared} sessions {active}")
}

// A session, its rate, and its binding place: "own" stands alone.
fn print_session(rt: &impl Print, t: u32, num: u64, den: u64, place: u64) -> io::Result<()> {
    if place == calculation::OWN {
        return println!(rt; "{t} {num}/{den} own");
    }
    println!(rt; "{t} {num}/{den} link {place}")
}

// The sessions by rising number.
fn print_sessions(
    rt: &impl Print,
    sessions: u32,
    nums: &[u64; 32],
    dens: &[u64; 32],
    places: &[u64; 32],
) -> io::Result<()> {
    for t in sessions::each(sessions) {
        let i = t as usize;
        print_session(rt, t, nums[i], dens[i], places[i])?;
    }
    Ok(())
}

// The text of the calculation of these records. What is written is no part of a contract. Three arrays, and 64 for "own": `calculate` is called so from C.
pub fn print(rt: &impl Print, s: &[u8]) -> io::Result<()> {
    let mut nums = [0u64; 32];
    let mut dens = [0u64; 32];
    let mut places = [0u64; 32];
    match calculation::calculate(s, &mut nums, &mut dens, &mut places) {
        Ok(declared) => {
            print_header(rt, declared.links, declared.sessions)?;
            print_sessions(rt, declared.sessions, &nums, &dens, &places)
        }
        Err(refused) => println!(rt; "{refused}"),
    }
}
