// Reads recorded inputs from standard input and prints for each a line with its number and sort, and then what `shares` or `steps` prints for it.
// Each input is framed: a byte of sort, `c` for the calculation or `m` for the machine from the empty table, two bytes of length, big-endian, and
// that many bytes of records. The first frame that is cut off or of another sort is the end. The expected text is the second implementation's.
#![tactic(auto)]

use std::io;
use std::io::Read;

// Nothing says that standard input ends, so the loop has an end of its own, far above the recorded inputs.
const INPUTS: u64 = 1_000_000;

// The text of one input; answers whether its sort is known.
fn print_input(rt: &impl Print, number: u64, sort: u8, s: &[u8]) -> io::Result<bool> {
    match sort {
        b'c' => {
            println!(rt; "input {number} calculation")?;
            shares_text::print(rt, s)?;
            Ok(true)
        }
        b'm' => {
            println!(rt; "input {number} machine")?;
            steps_text::print(rt, s)?;
            Ok(true)
        }
        _ => Ok(false),
    }
}

// Reads the sort and the length, and then so many bytes of records, and prints their text; answers whether there may be another input.
fn take_input<R: Read>(reader: &mut R, rt: &impl Print, number: u64) -> io::Result<bool> {
    let mut head = [0u8; 3];
    if reading::read_full(reader, &mut head)? < 3 {
        return Ok(false);
    }
    let [sort, high, low] = head;
    let n = usize::from(u16::from_be_bytes([high, low]));
    let mut input = [0u8; 65_536];
    if reading::read_full(reader, &mut input[..n])? < n {
        return Ok(false);
    }
    print_input(rt, number, sort, &input[..n])
}

fn main(rt: HostRuntime) -> io::Result<()> {
    let mut stdin = rt.stdin();
    for number in 0..INPUTS {
        if !take_input(&mut stdin, &rt, number)? {
            break;
        }
    }
    Ok(())
}
