// Plays a script from standard input: it makes tables, hands them to the machine, and prints what the machine says of each. The script is the file
// `stdin`, which says what the commands are; the expected lines, in `stdout`, are written from 01.
#![tactic(auto)]

mod commands;
mod playing;
mod says;
mod scan;

use commands::Command;
use std::io;

// An empty line and a comment say nothing. A line that is not understood, or that could not be done, is printed.
fn line(rt: &impl Print, t: &mut [u64; 9153], held: &mut [u64; 9153], l: &[u8]) -> io::Result<()> {
    if matches!(l, [] | [b'#', ..]) {
        return Ok(());
    }
    let is_done = match Command::of_line(l) {
        Some(command) => playing::play(rt, t, held, command)?,
        None => false,
    };
    if !is_done {
        rt.print("not done: ")?;
        rt.write_all(l)?;
        rt.println("")?;
    }
    Ok(())
}

// The lines one after the other, from the empty table on.
fn lines(rt: &impl Print, script: &[u8]) -> io::Result<()> {
    let mut t = [0u64; 9153];
    let mut held = [0u64; 9153];
    for l in script.split(|b| *b == b'\n') {
        line(rt, &mut t, &mut held, l)?;
    }
    Ok(())
}

fn main(rt: HostRuntime) -> io::Result<()> {
    let mut script = [0u8; 65_536];
    let n = reading::read_full(&mut rt.stdin(), &mut script)?;
    lines(&rt, &script[..n])
}
