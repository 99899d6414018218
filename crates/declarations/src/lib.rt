// The declared links and sessions of an input (01, "Records"), and a session's own limit.
#![tactic(auto)]

ghost use Rattle.std.specs.Prelude.{◌≡◌, ◌+◌, ◌*◌, ◌≤◌, ◌<◌, length};
ghost use Rattle.records.specs.Format.{read_at, RecordOk};
ghost use Rattle.records.specs.Run.{judged, said_of};
ghost use Rattle.records.specs.declared.Call.TheVariants as call;
ghost use Rattle.declarations.specs.Declaring.{own_limit_of, path_declared, judging, copied, declare_of, none_declared, declarations_of};

use records::{Call, Record, Refusal, Refused};

// The declared links and sessions. A path has eight bytes; those that it does not use are 255.
#[derive(Clone, Copy)]
pub struct Declared {
    pub links: u64,
    pub capacity: [u64; 64],
    pub sessions: u32,
    pub access: [u64; 32],
    pub maximum: [u64; 32],
    pub path: [u8; 256],
}

// What a run of records declared, how many were taken, and how it ended.
#[derive(Clone, Copy)]
pub struct Declarations {
    pub declared: Declared,
    pub taken: usize,
    pub end: Result<(), Refused>,
}

// A session's own limit D: the smaller of its access rate and its maximum, or the access rate where there is no maximum.
pub fn own_limit(access: u64, maximum: u64) -> u64
    ensures { result ≡ own_limit_of access maximum }
{
    if maximum == 0 {
        return access;
    }
    if access <= maximum {
        return access;
    }
    maximum
}

// Whether all n links of a path are declared.
pub fn path_declared(links: u64, s: &[u8], at: usize, n: usize) -> bool
    requires { (n ≤ 8) × (at + 8 ≤ length s.now) }
    ensures { result ≡ path_declared links s.now at n }
{
    s[at..at + n]
        .iter()
        .all(|e| sessions::has(links, u32::from(*e)))
}

// The eight path bytes of session t.
fn copy_path(path: &mut [u8; 256], s: &[u8], t: u32, at: usize)
    requires { (t < 32) × (at + 8 ≤ length s.now) }
    ensures { path.new ≡ copied 8 path.old (t * 8) s.now at }
{
    let from = (t as usize) * 8;
    path[from..from + 8].copy_from_slice(&s[at..at + 8]);
}

impl Declared {
    // Nothing is declared.
    pub fn none() -> Declared
        ensures { result ≡ none_declared }
    {
        Declared {
            links: 0,
            capacity: [0; 64],
            sessions: 0,
            access: [0; 32],
            maximum: [0; 32],
            path: [255; 256],
        }
    }

    // Whether a record is taken: refusals 7, 16 and 8.
    fn judge(&self, s: &[u8], x: Record) -> Result<(), Refusal>
        requires { RecordOk s.now x }
        ensures { result ≡ judging s.now self.now x }
    {
        match x {
            Record::Link { link, .. } => {
                if sessions::has(self.links, link) {
                    return Err(Refusal::AlreadyThere);
                }
                Ok(())
            }
            Record::Session(x) => {
                if sessions::has(self.sessions, x.session) {
                    return Err(Refusal::AlreadyThere);
                }
                if records::above_line(x.access, x.maximum) {
                    return Err(Refusal::AboveLine);
                }
                if !path_declared(self.links, s, x.path, x.size) {
                    return Err(Refusal::UndeclaredLink);
                }
                Ok(())
            }
            _ => Err(Refusal::KindNotTaken),
        }
    }

    // The next record, or why it is refused.
    fn next(&self, s: &[u8], at: usize) -> Result<Record, Refusal>
        requires { at < length s.now }
        ensures { result ≡ judged (read_at call.Calculation s.now at) (judging s.now self.now) }
    {
        let x = records::read_at(Call::Calculation, s, at)?;
        self.judge(s, x)?;
        Ok(x)
    }

    // What a record that is taken declares.
    fn take(&mut self, s: &[u8], x: Record)
        requires { RecordOk s.now x }
        ensures { self.new ≡ declare_of s.now self.old x }
    {
        match x {
            Record::Link { link, capacity } => {
                self.links = sessions::put(self.links, link);
                self.capacity[link as usize] = capacity;
            }
            Record::Session(x) => {
                let i = x.session as usize;
                self.sessions = sessions::put(self.sessions, x.session);
                self.access[i] = x.access;
                self.maximum[i] = x.maximum;
                copy_path(&mut self.path, s, x.session, x.path);
            }
            _ => {}
        }
    }
}

// All declarations of an input, up to the first record that is refused.
pub fn declare_all(s: &[u8]) -> Declarations
    ensures exact { result ≡ declarations_of s.now }
    ensures said { said_of result.taken result.end ≡ said_of (declarations_of s.now).taken (declarations_of s.now).end }
{
    let mut declared = Declared::none();
    let mut taken: usize = 0;
    let mut at: usize = 0;
    while at < s.len() {
        match declared.next(s, at) {
            Ok(x) => {
                declared.take(s, x);
                taken += 1;
                at += records::size_at(s, at);
            }
            Err(refusal) => {
                return Declarations {
                    declared,
                    taken,
                    end: Err(Refused { refusal, place: at }),
                };
            }
        }
    }
    Declarations {
        declared,
        taken,
        end: Ok(()),
    }
}
