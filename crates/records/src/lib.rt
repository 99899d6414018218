// The sites' records: the limits, the refusals and their numbers, and one record read at a place (01, "Records").
#![tactic(auto)]

mod paths;
mod reading;

ghost use Rattle.std.specs.Prelude.{◌≡◌, Some};
ghost use Rattle.records.specs.Limits.{above_line};
ghost use Rattle.records.specs.Refusals.{number_of, refused_text};

use fractions::Rate;
pub use reading::{read_at, size_at};
use std::fmt;

// 64 links, 32 sessions, paths of at most 8 links, rates of at most 1,000,000 kbit/s, 256 packets, 32,768 bytes of input.
pub const LINKS: u8 = 64;

pub const SESSIONS: u8 = 32;

pub const PATH: usize = 8;

pub const RATE: u64 = Rate::MAX;

pub const PACKETS: usize = 256;

pub const INPUT: usize = 32_768;

// The body's length, by kind.
pub const BODIES: [usize; 6] = [0, 5, 18, 1, 5, 2];

// Why a call turns something away. As a `u64` it is its number in 01 or 02.
#[derive(Clone, Copy, Debug, PartialEq, Eq)]
pub enum Refusal {
    TooLong,
    KindNotTaken,
    CutOff,
    NumberTooLarge,
    RateOutOfRange,
    BadPath,
    AlreadyThere,
    UndeclaredLink,
    NotActive,
    StillLeaving,
    BadPosition,
    TooFine,
    TooManyPackets,
    BadTable,
    ShortSlice,
    AboveLine,
    ShorterThanOutput,
}

// A refusal, and the place of its record's kind byte: 0 for those of a whole call.
#[derive(Clone, Copy, Debug, PartialEq, Eq)]
pub struct Refused {
    pub refusal: Refusal,
    pub place: usize,
}

// The calls that read records take different kinds.
#[derive(Clone, Copy, Debug, PartialEq, Eq)]
pub enum Call {
    Calculation,
    Machine,
}

// What a session's record says. The link bytes of its path, `size` of them, stay in the input, from `path` on.
#[derive(Clone, Copy, Debug, PartialEq, Eq)]
pub struct SessionRecord {
    pub session: u32,
    pub access: u64,
    pub maximum: u64,
    pub size: usize,
    pub path: usize,
}

// One record.
#[derive(Clone, Copy, Debug, PartialEq, Eq)]
pub enum Record {
    Link { link: u32, capacity: u64 },
    Session(SessionRecord),
    Leave { session: u32 },
    Change { session: u32, maximum: u64 },
    Deliver { position: usize },
}

// The number of a refusal.
impl From<Refusal> for u64 {
    ghost from_gives = { λ r n. n ≡ number_of r };

    fn from(r: Refusal) -> u64 {
        match r {
            Refusal::TooLong => 1,
            Refusal::KindNotTaken => 2,
            Refusal::CutOff => 3,
            Refusal::NumberTooLarge => 4,
            Refusal::RateOutOfRange => 5,
            Refusal::BadPath => 6,
            Refusal::AlreadyThere => 7,
            Refusal::UndeclaredLink => 8,
            Refusal::NotActive => 9,
            Refusal::StillLeaving => 10,
            Refusal::BadPosition => 11,
            Refusal::TooFine => 12,
            Refusal::TooManyPackets => 13,
            Refusal::BadTable => 14,
            Refusal::ShortSlice => 15,
            Refusal::AboveLine => 16,
            Refusal::ShorterThanOutput => 17,
        }
    }
}

// `refused N at P`, as the programs print it.
impl fmt::Display for Refused {
    ghost output = { λ r. Some (refused_text r) };

    fn fmt<W: fmt::Write>(&self, f: &mut fmt::Formatter<W>) -> fmt::Result {
        let number = u64::from(self.refusal);
        let place = self.place;
        write!(f, "refused {number} at {place}")
    }
}

// Whether a maximum is above the line (02, §1).
pub fn above_line(access: u64, maximum: u64) -> bool
    ensures { result ≡ above_line access maximum }
{
    access < maximum
}
