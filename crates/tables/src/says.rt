// What the machine says of a table: `taken N` or `taken N refused R at P`, and where it is asked `settled yes`, `settled no` or
// `settled refused R at P`. A table that was to stay and did not is `changed`.
use machine::Session;
use records::Refused;
use std::io;

// How many records a run took, and how it ended.
pub fn ran(rt: &impl Print, taken: usize, end: Result<(), Refused>) -> io::Result<()> {
    print!(rt; ": taken {taken}")?;
    match end {
        Ok(()) => Ok(()),
        Err(refused) => print!(rt; " {refused}"),
    }
}

// How many packets are in flight.
pub fn packets(rt: &impl Print, t: &[u64; 9153]) -> io::Result<()> {
    print!(rt; " packets {}", machine::in_flight(t))
}

// Whether the table is settled.
pub fn settled(rt: &impl Print, t: &[u64; 9153]) -> io::Result<()> {
    match machine::settled(t) {
        Ok(true) => rt.print(" settled yes"),
        Ok(false) => rt.print(" settled no"),
        Err(refused) => print!(rt; " settled {refused}"),
    }
}

// The rate last told to session 0, and the words of R and F of link 0.
pub fn told(rt: &impl Print, t: &[u64; 9153]) -> io::Result<()> {
    match machine::session_at(t, 0) {
        Session::NotActive => rt.print(" not active")?,
        Session::Active(None) => rt.print(" none")?,
        Session::Active(Some(x)) => print!(rt; " rate {x}")?,
    }
    print!(rt; " R {} F {}", t[1], t[2])
}

// The line ends, with `changed` where the table is another than it was to be.
pub fn same(rt: &impl Print, t: &[u64; 9153], expected: &[u64; 9153]) -> io::Result<()> {
    rt.println(if t == expected { "" } else { " changed" })
}
