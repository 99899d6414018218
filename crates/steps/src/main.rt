// Reads records from standard input, runs them from the empty table, and prints what the table then says (01, "Examples").
#![tactic(auto)]

use std::io;

fn main(rt: HostRuntime) -> io::Result<()> {
    // One byte over the limit is enough to see that an input is too long.
    let mut input = [0u8; records::INPUT + 1];
    let n = reading::read_full(&mut rt.stdin(), &mut input)?;
    steps_text::print(&rt, &input[..n])
}
