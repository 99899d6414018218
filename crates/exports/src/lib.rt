// The library's entry points for Rust and C (include/umbraconga.h): each calls the entry point of its name and writes its answer as the documents' numbers.
// They take every input: a table or a slice that is turned away is reported by its number and left as it was.
#![tactic(auto)]

ghost use Rattle.std.specs.Prelude.{◌≡◌};
ghost use Rattle.calculation.specs.Calculating.{calculate_of};
ghost use Rattle.machine.specs.Machine.{answer_of, machine_of, session_of, session_report_of, told_report_of};
ghost use Rattle.present_set.specs.Present.{present_of};
ghost use Rattle.table.specs.Words.{count_of, empty_words};
ghost use Rattle.exports.specs.Meanings.{BindsWhereTaken, FairWhereTaken, RecordsMean, SettledMeans};
ghost use Rattle.exports.specs.Reports.{calculation_report_of, end_report_of, run_report_of, settled_number_of, wrote_report_of};

use calculation::Calculated;
use fractions::Rate;
use machine::Session;
use records::Refused;

// The number, the place, the declared links and the declared sessions.
fn calculation_report(answer: Result<Calculated, Refused>) -> [u64; 4]
    ensures { result ≡ calculation_report_of answer }
{
    match answer {
        Ok(x) => [0, 0, x.links, x.sessions as u64],
        Err(r) => [u64::from(r.refusal), r.place as u64, 0, 0],
    }
}

// The number, the place and the records taken.
fn end_report(taken: usize, end: Result<(), Refused>) -> [u64; 3]
    ensures { result ≡ end_report_of taken end }
{
    match end {
        Ok(()) => [0, 0, taken as u64],
        Err(r) => [u64::from(r.refusal), r.place as u64, taken as u64],
    }
}

// 1 for yes, 0 for no, or the refusal's number.
fn settled_number(answer: Result<bool, Refused>) -> u64
    ensures { result ≡ settled_number_of answer }
{
    match answer {
        Ok(true) => 1,
        Ok(false) => 0,
        Err(r) => u64::from(r.refusal),
    }
}

// That a session is active, and the rate last told to it.
fn told_report(told: Option<Rate>) -> [u64; 3]
    ensures { result ≡ told_report_of told }
{
    match told {
        None => [1, 0, 0],
        Some(x) => [1, x.num, x.den],
    }
}

// Whether a session is active, and the rate last told to it.
fn session_report(session: Session) -> [u64; 3]
    ensures { result ≡ session_report_of session }
{
    match session {
        Session::NotActive => [0, 0, 0],
        Session::Active(told) => told_report(told),
    }
}

// The number, the place and the bytes written.
fn wrote_report(answer: Result<usize, Refused>) -> [u64; 3]
    ensures { result ≡ wrote_report_of answer }
{
    match answer {
        Ok(n) => [0, 0, n as u64],
        Err(r) => [u64::from(r.refusal), r.place as u64, 0],
    }
}

// The direct calculation: every declared session's max-min fair rate and its binding place.
#[unsafe(no_mangle)]
pub extern "C" fn umbraconga_calculate(
    records: &[u8],
    nums: &mut [u64],
    dens: &mut [u64],
    places: &mut [u64],
    report: &mut [u64; 4],
)
    ensures exact { (report.new ≡ calculation_report_of (calculate_of records.now nums.old dens.old places.old).answer)
        × (nums.new ≡ (calculate_of records.now nums.old dens.old places.old).nums)
        × (dens.new ≡ (calculate_of records.now nums.old dens.old places.old).dens)
        × (places.new ≡ (calculate_of records.now nums.old dens.old places.old).places) }
    ensures ordered { FairWhereTaken records.now report.new nums.new dens.new }
    ensures binds { BindsWhereTaken records.now report.new nums.new dens.new places.new }
{
    let answer = calculation::calculate(records, nums, dens, places);
    *report = calculation_report(answer);
}

// Makes a table the empty one.
#[unsafe(no_mangle)]
pub extern "C" fn umbraconga_empty(table: &mut [u64; 9153])
    ensures { table.new ≡ empty_words }
{
    machine::make_empty(table);
}

// Runs records on a table: 14, then 1, then each record up to the first that is refused.
#[unsafe(no_mangle)]
pub extern "C" fn umbraconga_run(table: &mut [u64; 9153], records: &[u8], report: &mut [u64; 3])
    ensures { (report.new ≡ run_report_of (machine_of table.old records.now))
        × (table.new ≡ (machine_of table.old records.now).state) }
{
    let ran = machine::run(table, records);
    let end = ran.end;
    *report = end_report(ran.taken, end);
}

// Whether a table is settled.
#[unsafe(no_mangle)]
pub extern "C" fn umbraconga_settled(table: &[u64; 9153]) -> u64
    ensures exact { result ≡ settled_number_of (answer_of table.now) }
    ensures conditions { SettledMeans table.now result }
{
    settled_number(machine::settled(table))
}

// How many packets are in flight.
#[unsafe(no_mangle)]
pub extern "C" fn umbraconga_in_flight(table: &[u64; 9153]) -> u64
    ensures { result ≡ count_of table.now }
{
    machine::in_flight(table) as u64
}

// Whether a session is active, and the rate last told to it.
#[unsafe(no_mangle)]
pub extern "C" fn umbraconga_told(table: &[u64; 9153], session: u32, report: &mut [u64; 3])
    ensures { report.new ≡ session_report_of (session_of table.now session) }
{
    *report = session_report(machine::session_at(table, session));
}

// Writes the records of the links and active sessions that a table holds: 14, then 17. At most 992 bytes.
#[unsafe(no_mangle)]
pub extern "C" fn umbraconga_records(table: &[u64; 9153], out: &mut [u8], report: &mut [u64; 3])
    ensures exact { (report.new ≡ wrote_report_of (present_of table.now out.old).answer)
        × (out.new ≡ (present_of table.now out.old).bytes) }
    ensures present { RecordsMean table.now out.old out.new report.new }
{
    let answer = present_set::write_records(table, out);
    *report = wrote_report(answer);
}
