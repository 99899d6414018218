// What each command does. A function that answers `bool` answers whether the command could be done.
use super::commands::Command;
use super::{says, scan};
use std::io;

// The first packet stands at all 256 places of the list.
fn fill(t: &mut [u64; 9153]) {
    let (first, others) = t[7104..9152].split_at_mut(8);
    for place in others.chunks_exact_mut(8) {
        place.copy_from_slice(first);
    }
}

// Position 0 is delivered until no packet is in flight.
fn drain(t: &mut [u64; 9153]) -> bool {
    for _ in 0..2000u32 {
        if machine::in_flight(t) == 0 {
            return true;
        }
        machine::run(t, &[5, 0, 0]);
    }
    false
}

// What a run of records says.
fn run(rt: &impl Print, t: &mut [u64; 9153], s: &[u8]) -> io::Result<()> {
    let x = machine::run(t, s);
    says::ran(rt, x.taken, x.end)
}

// A table that is handed in, with no records: the run, whether it is settled, and that it stays.
fn hand(rt: &impl Print, t: &mut [u64; 9153]) -> io::Result<()> {
    let before = *t;
    run(rt, t, &[])?;
    says::settled(rt, t)?;
    says::same(rt, t, &before)
}

// The records that a text writes are all to be taken.
fn take(t: &mut [u64; 9153], text: &[u8]) -> bool {
    let mut input = [0u8; 65_536];
    match scan::records(text, &mut input) {
        Some(s) => machine::run(t, s).end.is_ok(),
        None => false,
    }
}

// What a run of the records that a text writes says.
fn run_text(rt: &impl Print, t: &mut [u64; 9153], text: &[u8]) -> io::Result<bool> {
    let mut input = [0u8; 65_536];
    let Some(s) = scan::records(text, &mut input) else {
        return Ok(false);
    };
    run(rt, t, s)?;
    Ok(true)
}

// What a run of so many bytes of 0 says.
fn run_zeros(rt: &impl Print, t: &mut [u64; 9153], count: usize) -> io::Result<bool> {
    let input = [0u8; 65_536];
    let Some(s) = input.get(..count) else {
        return Ok(false);
    };
    run(rt, t, s)?;
    Ok(true)
}

// A word of the table becomes a number. Nothing is to stand behind it, but the word changes also then.
fn put(t: &mut [u64; 9153], at: usize, number: u64, rest: &[u8]) -> bool {
    let Some(word) = t.get_mut(at) else {
        return false;
    };
    *word = number;
    rest.is_empty()
}

// The table is handed in with one word changed, which is then put back.
fn with(
    rt: &impl Print,
    t: &mut [u64; 9153],
    at: usize,
    number: u64,
    text: &[u8],
) -> io::Result<bool> {
    let Some(word) = t.get_mut(at) else {
        return Ok(false);
    };
    let old = std::mem::replace(word, number);
    rt.write_all(text)?;
    hand(rt, t)?;
    t[at] = old;
    Ok(true)
}

// A command on the table and the one that is remembered.
pub fn play(
    rt: &impl Print,
    t: &mut [u64; 9153],
    held: &mut [u64; 9153],
    command: Command<'_>,
) -> io::Result<bool> {
    match command {
        Command::Empty => machine::make_empty(t),
        Command::Fill => fill(t),
        Command::Drain => return Ok(drain(t)),
        Command::Hold => *held = *t,
        Command::Swap => std::mem::swap(t, held),
        Command::Packets => says::packets(rt, t)?,
        Command::Settled => says::settled(rt, t)?,
        Command::Told => says::told(rt, t)?,
        Command::Same => says::same(rt, t, held)?,
        Command::End => rt.println("")?,
        Command::Say(text) => rt.write_all(text)?,
        Command::Hand(text) => {
            rt.write_all(text)?;
            hand(rt, t)?;
        }
        Command::Take(text) => return Ok(take(t, text)),
        Command::Run(text) => return run_text(rt, t, text),
        Command::Zeros(count) => return run_zeros(rt, t, count),
        Command::Put { at, number, rest } => return Ok(put(t, at, number, rest)),
        Command::With { at, number, text } => return with(rt, t, at, number, text),
    }
    Ok(true)
}
