// README's three ways to call the library from Rattle, on P2 (01, "Examples"): accepting.rt, settling.rt and carrying.rt are README's text.
#![tactic(auto)]

mod accepting;
mod carrying;
mod settling;

use fractions::Rate;
use links::{Link, Place};
use std::io;
use tasks::{Eta, Kind};

// P2: link 0 of 10, and session 0 over it with an access line of 100.
const P2: [u8; 25] = [
    1, 0, 0, 0, 0, 10, 2, 0, 0, 0, 0, 100, 0, 0, 0, 0, 1, 0, 255, 255, 255, 255, 255, 255, 255,
];

// Position 0 is delivered six times.
const SIX_DELIVERIES: [u8; 18] = [5, 0, 0, 5, 0, 0, 5, 0, 0, 5, 0, 0, 5, 0, 0, 5, 0, 0];

fn say(rt: &impl Print, text: &str, is_so: bool) -> io::Result<()> {
    let answer = if is_so { "yes" } else { "no" };
    println!(rt; "{text}: {answer}")
}

fn accept(rt: &impl Print) -> io::Result<()> {
    let mut nums = [0u64; 32];
    let mut dens = [0u64; 32];
    let mut places = [0u64; 32];
    say(
        rt,
        "accepted",
        accepting::is_accepted(&P2, &mut nums, &mut dens, &mut places),
    )?;
    say(
        rt,
        "accepted where a slice has no place",
        accepting::is_accepted(&P2, &mut nums, &mut dens, &mut []),
    )
}

fn settle(rt: &impl Print) -> io::Result<()> {
    let mut t = [0u64; 9153];
    say(
        rt,
        "settled after the join",
        settling::is_settled_after(&mut t, &P2),
    )?;
    say(
        rt,
        "settled after six deliveries",
        settling::is_settled_after(&mut t, &SIX_DELIVERIES),
    )
}

fn carry(rt: &impl Print) -> io::Result<()> {
    let entries = lent::no_entries();
    let link = Link {
        capacity: 10,
        r: 0,
        f: 0,
    };
    let card = Place { link, entries };
    let after = carrying::after_packet(card, 0, Kind::Join(Rate::whole(100), Eta::Own));
    say(rt, "session 0 in R after its Join", after.link.r == 1)
}

fn main(rt: HostRuntime) -> io::Result<()> {
    accept(&rt)?;
    settle(&rt)?;
    carry(&rt)
}
