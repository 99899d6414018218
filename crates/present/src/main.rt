// Reads records from standard input, runs them from the empty table, and writes the records of the links and active sessions that the table then holds
// (02, §3): `present < day.bin | shares` prints the fair rates of the present set.
#![tactic(auto)]

use std::io;

// The records of the links and active sessions that a table holds, 992 bytes at most. What is written is no part of a contract.
fn print_records(rt: &impl Print, t: &[u64; 9153]) -> io::Result<()> {
    let mut out = [0u8; 992];
    match present_set::write_records(t, &mut out) {
        Ok(n) => rt.write_all(&out[..n]),
        Err(_) => Ok(()),
    }
}

fn main(rt: HostRuntime) -> io::Result<()> {
    // One byte over the limit is enough to see that an input is too long.
    let mut input = [0u8; records::INPUT + 1];
    let n = reading::read_full(&mut rt.stdin(), &mut input)?;
    let mut t = [0u64; 9153];
    machine::make_empty(&mut t);
    machine::run(&mut t, &input[..n]);
    print_records(&rt, &t)
}
