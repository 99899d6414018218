// Reads records from standard input and prints every session's max-min fair rate and its binding place (01, "Examples").
#![tactic(auto)]

use std::io;

fn main(rt: HostRuntime) -> io::Result<()> {
    // One byte over the limit is enough to see that an input is too long.
    let mut input = [0u8; records::INPUT + 1];
    let n = reading::read_full(&mut rt.stdin(), &mut input)?;
    shares_text::print(&rt, &input[..n])
}
