// What `steps` prints for an input (01, "Examples"): what the table says after a run from the empty one, and the refusal, if any.
#![tactic(auto)]

use machine::Session;
use std::io;

// Records taken, packets in flight, and whether the table is settled.
fn print_header(rt: &impl Print, taken: usize, t: &[u64; 9153]) -> io::Result<()> {
    let packets = machine::in_flight(t);
    let settled = if machine::settled(t).unwrap_or(false) {
        "yes"
    } else {
        "no"
    };
    println!(rt; "taken {taken} packets {packets} settled {settled}")
}

// A session that is active, and the rate last told to it, or `none`.
fn print_session(rt: &impl Print, s: u32, x: Session) -> io::Result<()> {
    match x {
        Session::NotActive => Ok(()),
        Session::Active(None) => println!(rt; "{s} none"),
        Session::Active(Some(told)) => println!(rt; "{s} {told}"),
    }
}

// The text of a run of these records from the empty table. What is written is no part of a contract.
pub fn print(rt: &impl Print, s: &[u8]) -> io::Result<()> {
    let mut t = [0u64; 9153];
    machine::make_empty(&mut t);
    let ran = machine::run(&mut t, s);
    print_header(rt, ran.taken, &t)?;
    // The active sessions by rising number.
    for s in 0..32u32 {
        print_session(rt, s, machine::session_at(&t, s))?;
    }
    // A refusal ends the output.
    match ran.end {
        Ok(()) => Ok(()),
        Err(refused) => println!(rt; "{refused}"),
    }
}
