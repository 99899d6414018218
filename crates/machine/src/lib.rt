// The machine: a lent table of words takes records one at a time, and knows when it is settled (01).
#![tactic(auto)]

ghost use Rattle.std.specs.Prelude.{◌≡◌, ◌<◌, length};
ghost use Rattle.events.specs.Events.{ended};
ghost use Rattle.records.specs.Run.{said_of};
ghost use Rattle.table.specs.Words.{count_of, empty_words};
ghost use Rattle.machine.specs.Machine.{Means, answer_of, machine_of, nothing_taken, ran_of, run_records_of, session_of, session_report_of, step_of};

use fractions::Rate;
use records::{Call, Refusal, Refused};

// How many records a run took, and how it ended.
#[derive(Clone, Copy)]
pub struct Ran {
    pub taken: usize,
    pub end: Result<(), Refused>,
}

// A session as its owner sees it: not active, or active with the rate last told. Kept an enum: as an Option around what was told, the cases would have no names.
#[derive(Clone, Copy)]
pub enum Session {
    NotActive,
    Active(Option<Rate>),
}

// Makes the lent table the empty one.
pub fn make_empty(t: &mut [u64; 9153])
    ensures { t.new ≡ empty_words }
{
    table::clear(t);
}

// How many packets are in flight.
pub fn in_flight(t: &[u64; 9153]) -> usize
    ensures { result ≡ count_of t.now }
{
    table::count(t)
}

// A session and the rate last told to it. No session has a number over 31.
pub fn session_at(t: &[u64; 9153], s: u32) -> Session
    ensures exact { result ≡ session_of t.now s }
    ensures said { session_report_of result ≡ session_report_of (session_of t.now s) }
{
    if 32 <= s {
        return Session::NotActive;
    }
    let z = table::source_at(t, s as usize);
    if !z.active {
        return Session::NotActive;
    }
    let told = z.told;
    Session::Active(told)
}

// The record at a place, and what it does.
fn step(t: &mut [u64; 9153], s: &[u8], at: usize) -> Result<(), Refusal>
    requires { at < length s.now }
    ensures { ended result t.new ≡ step_of s.now t.old at }
{
    let x = records::read_at(Call::Machine, s, at)?;
    events::event(t, s, x)
}

// All records of an input, up to the first that is refused.
fn run_records(t: &mut [u64; 9153], s: &[u8]) -> Ran
    ensures { ran_of result t.new ≡ run_records_of t.old s.now }
{
    let mut at: usize = 0;
    let mut n: usize = 0;
    while at < s.len() {
        let v = step(t, s, at);
        match v {
            Ok(()) => {
                at = at + records::size_at(s, at);
                n = n + 1;
            }
            Err(r) => {
                return Ran {
                    taken: n,
                    end: Err(Refused {
                        refusal: r,
                        place: at,
                    }),
                };
            }
        }
    }
    Ran {
        taken: n,
        end: Ok(()),
    }
}

// Nothing was taken.
fn turned_away(refusal: Refusal) -> Ran
    ensures { result ≡ nothing_taken refusal }
{
    Ran {
        taken: 0,
        end: Err(Refused {
            refusal: refusal,
            place: 0,
        }),
    }
}

// Runs the records of an input on a table that is handed in: 14, then 1, then each record. The run stops at the first record that is refused,
// and the table is then the one before it.
pub fn run(t: &mut [u64; 9153], s: &[u8]) -> Ran
    ensures exact { ran_of result t.new ≡ machine_of t.old s.now }
    ensures said { said_of result.taken result.end ≡ said_of (machine_of t.old s.now).taken (machine_of t.old s.now).end }
{
    if !handed::passes_14(t) {
        return turned_away(Refusal::BadTable);
    }
    if records::INPUT < s.len() {
        return turned_away(Refusal::TooLong);
    }
    run_records(t, s)
}

// Whether a table that is handed in is settled: 14, where it fails the test.
pub fn settled(t: &[u64; 9153]) -> Result<bool, Refused>
    ensures exact { result ≡ answer_of t.now }
    ensures conditions { Means t.now result }
{
    if !handed::passes_14(t) {
        return Err(Refused {
            refusal: Refusal::BadTable,
            place: 0,
        });
    }
    Ok(conditions::is_settled(t))
}
