// What a card prints: the answer, the words of R and F, and the entries that the link holds.
use lent::{Checked, Sent};
use links::{Bound, Entry, Link, Mu, Place};
use records::Refusal;
use std::{fmt, io};
use tasks::{Burst, Eta, Kind, Tau};

// A value as a card prints it.
#[derive(Clone, Copy)]
pub struct Said<T>(pub T);

impl fmt::Display for Said<Eta> {
    fn fmt<W: fmt::Write>(&self, f: &mut fmt::Formatter<W>) -> fmt::Result {
        match self.0 {
            Eta::Own => write!(f, "own"),
            Eta::Link(e) => write!(f, "link {e}"),
        }
    }
}

impl fmt::Display for Said<Tau> {
    fn fmt<W: fmt::Write>(&self, f: &mut fmt::Formatter<W>) -> fmt::Result {
        match self.0 {
            Tau::Response => write!(f, "response"),
            Tau::Update => write!(f, "update"),
            Tau::Bottleneck => write!(f, "bottleneck"),
        }
    }
}

impl fmt::Display for Said<Kind> {
    fn fmt<W: fmt::Write>(&self, f: &mut fmt::Formatter<W>) -> fmt::Result {
        match self.0 {
            Kind::Join(x, eta) => write!(f, "Join {x} {}", Said(eta)),
            Kind::Probe(x, eta) => write!(f, "Probe {x} {}", Said(eta)),
            Kind::Response(tau, x, eta) => write!(f, "Response {} {x} {}", Said(tau), Said(eta)),
            Kind::Update => write!(f, "Update"),
            Kind::Bottleneck => write!(f, "Bottleneck"),
            Kind::SetBottleneck(beta) => write!(f, "SetBottleneck {beta}"),
            Kind::Leave => write!(f, "Leave"),
        }
    }
}

impl fmt::Display for Said<Burst> {
    fn fmt<W: fmt::Write>(&self, f: &mut fmt::Formatter<W>) -> fmt::Result {
        match self.0 {
            Burst::Update => write!(f, "Update"),
            Burst::Bottleneck => write!(f, "Bottleneck"),
        }
    }
}

impl fmt::Display for Said<Option<Kind>> {
    fn fmt<W: fmt::Write>(&self, f: &mut fmt::Formatter<W>) -> fmt::Result {
        match self.0 {
            None => write!(f, "nothing"),
            Some(kind) => write!(f, "{}", Said(kind)),
        }
    }
}

impl fmt::Display for Said<Refusal> {
    fn fmt<W: fmt::Write>(&self, f: &mut fmt::Formatter<W>) -> fmt::Result {
        write!(f, "refused {}", u64::from(self.0))
    }
}

// What the step sends to a set of sessions, and of the packet's own; or the refusal.
impl fmt::Display for Said<Result<Sent, Refusal>> {
    fn fmt<W: fmt::Write>(&self, f: &mut fmt::Formatter<W>) -> fmt::Result {
        match self.0 {
            Ok(Sent { burst, to, on }) => write!(f, "{} to word {to}, {}", Said(burst), Said(on)),
            Err(refusal) => write!(f, "{}", Said(refusal)),
        }
    }
}

impl fmt::Display for Said<Bound> {
    fn fmt<W: fmt::Write>(&self, f: &mut fmt::Formatter<W>) -> fmt::Result {
        match self.0 {
            Bound::At(b) => write!(f, "{b}"),
            Bound::Above => write!(f, "above"),
            Bound::TooFine => write!(f, "too fine"),
        }
    }
}

// The sessions that are sent an Update, and B; or the refusal.
impl fmt::Display for Said<Result<Checked, Refusal>> {
    fn fmt<W: fmt::Write>(&self, f: &mut fmt::Formatter<W>) -> fmt::Result {
        match self.0 {
            Ok(Checked { to, bound }) => write!(f, "Update to word {to}, B {}", Said(bound)),
            Err(refusal) => write!(f, "{}", Said(refusal)),
        }
    }
}

impl fmt::Display for Said<Mu> {
    fn fmt<W: fmt::Write>(&self, f: &mut fmt::Formatter<W>) -> fmt::Result {
        match self.0 {
            Mu::Idle => write!(f, "idle"),
            Mu::WaitingProbe => write!(f, "waiting for a probe"),
            Mu::WaitingResponse => write!(f, "waiting for a response"),
        }
    }
}

// R and F, and each session that the link holds, with its rate and its state.
pub fn place(rt: &impl Print, p: Place) -> io::Result<()> {
    let Link { r, f, .. } = p.link;
    print!(rt; "; R {r} F {f}")?;
    for s in sessions::each(r | f) {
        let Entry { mu, rate } = p.entries[s as usize];
        print!(rt; "; {s} {rate} {}", Said(mu))?;
    }
    rt.println("")
}
