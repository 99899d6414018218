// The direct calculation (01; 001, Figure 1), over one common denominator: the rates fixed so far, and what is left of the links, are whole numbers
// of parts 1/den. So what a round changes is a multiplication for each link that has a session not yet fixed, where the denominator grows, and a
// subtraction for each link of a session that it fixes, which the link remembers if it was the last there; it reduces no fraction.
#![tactic(auto)]

ghost use Rattle.std.specs.Prelude.{◌≡◌, ℕ, ◌*◌, ◌≤◌, ◌<◌, eqb, get_or, length, replicate};
ghost use Rattle.fractions.specs.Fraction.{max_rate};
ghost use Rattle.filling.specs.Crossings.{Beside, Crossing, Joins};
ghost use Rattle.filling.specs.Lines.{Filled, Ranges, crosses_of};
ghost use Rattle.filling.specs.OneRound.{Enough, Grown, Leavable, Leaves, RatesAfter, RatesFit, Whole, Without, rate_after};
ghost use Rattle.filling.specs.SmallestShare.{Busy, Counted, GivenFits, LeastLink, LeastOwn, SharesFit, SmallestFits, parts_limit, smaller_of};

use declarations::Declared;
use fractions::Part;

// The links as the rounds leave them: those that have a session not yet fixed; and for each link what is left of it, the sessions there not yet fixed,
// how many they are, and the one that was fixed last, where all are fixed.
// Kept as arrays beside each other: `room` and `last` go into the answer whole, and a loop over one of them touches no other.
#[derive(Clone, Copy)]
struct Links {
    pub busy: u64,
    pub room: [u64; 64],
    pub at: [u32; 64],
    pub count: [u64; 64],
    pub last: [u32; 64],
}

// The smallest share so far, room / (den * count), the links that have it, and the sessions whose own limit has it.
#[derive(Clone, Copy)]
struct Smallest {
    pub room: u64,
    pub count: u64,
    pub own: u32,
    pub links: u64,
}

// What a round gives: the smallest share, room / (den * count), and the sessions that get it.
#[derive(Clone, Copy)]
struct Given {
    pub room: u64,
    pub count: u64,
    pub chosen: u32,
}

// All rates, rate / den; what is left of each link: 0 exactly where its capacity is fully used; and the session that was fixed last on each link that
// has one, which has the highest rate there.
#[derive(Clone, Copy)]
pub struct Fixed {
    pub den: u64,
    pub rate: [u64; 32],
    pub room: [u64; 64],
    pub last: [u32; 64],
}

impl Smallest {
    // This one, or the share of a link with so much left and so many sessions not yet fixed, where that is smaller; of two equal shares the links of
    // both.
    fn or_smaller(self, room: u64, count: u64, own: u32, link: u64) -> Smallest
        requires { SmallestFits self × (room ≤ parts_limit) × (count ≤ 32) }
        ensures { result ≡ smaller_of self room count own link }
    {
        if count == 0 {
            return self;
        }
        let share = Part { num: room, den: 1 }.among(count);
        let mine = share.num * self.count;
        let best = self.room * share.den;
        if mine < best {
            return Smallest {
                room: share.num,
                count: share.den,
                own,
                links: link,
            };
        }
        if mine == best {
            return Smallest {
                own: self.own | own,
                links: self.links | link,
                ..self
            };
        }
        self
    }

    // This one, or the own limit of one of the sessions not yet fixed, where that is smaller. 01: "D acts as one more link that only this session
    // crosses".
    fn or_own(self, den: u64, opens: u32, d: &Declared) -> Smallest
        requires { SmallestFits self × (den ≤ 118098) × ((s : ℕ) → s < 32 → get_or d.now.access s 0 ≤ max_rate) }
        ensures { LeastOwn self den opens d.now.access d.now.maximum result }
    {
        let mut least = self;
        for s in sessions::each(opens) {
            let i = s as usize;
            let limit = declarations::own_limit(d.access[i], d.maximum[i]);
            least = least.or_smaller(den * limit, 1, sessions::only(s), 0);
        }
        least
    }
}

impl Links {
    // Session s comes to the link of a path byte.
    fn join(&mut self, e: u8, s: u32)
        requires { (s < 32) × (length self.old.at ≡ 64) }
        ensures { Joins (eqb e) s self.old self.new }
    {
        if 64 <= e {
            return;
        }
        let i = e as usize;
        self.at[i] = sessions::put(self.at[i], s);
        self.busy = sessions::put(self.busy, e as u32);
    }

    // Session s comes to all links of its path.
    fn join_path(&mut self, path: &[u8; 256], s: u32)
        requires { (s < 32) × (length self.old.at ≡ 64) }
        ensures { Joins (λ e. crosses_of path.now e s) s self.old self.new }
    {
        let from = s as usize * 8;
        for e in &path[from..from + 8] {
            self.join(*e, s);
        }
    }

    // All sessions come to the links of their paths, which had nobody.
    fn join_all(&mut self, path: &[u8; 256], sessions: u32)
        requires { (self.old.busy ≡ 0) × (self.old.at ≡ replicate 64 0) }
        ensures { Crossing path.now sessions self.new × Beside self.old self.new }
    {
        for s in sessions::each(sessions) {
            self.join_path(path, s);
        }
    }

    // 01: "how many there are is the count of its ones".
    fn count_all(&mut self)
        requires { Busy self.old.busy self.old.at × (self.old.count ≡ replicate 64 0)
            × ((e : ℕ) → e < 64 → get_or self.old.at e 0 < 4294967296) }
        ensures { Counted self.old.at self.new.count × (length self.new.count ≡ 64)
            × (self.new ≡ record self.old { count = self.new.count }) }
    {
        for e in sessions::each(self.busy) {
            let i = e as usize;
            self.count[i] = sessions::size(self.at[i]) as u64;
        }
    }

    // 01: "In each round the smallest share is found": among the links. 1/0 is above every share.
    fn least(&self) -> Smallest
        requires { SharesFit self.now.busy self.now.room self.now.count }
        ensures { LeastLink self.now.room self.now.count result }
    {
        let mut least = Smallest {
            room: 1,
            count: 0,
            own: 0,
            links: 0,
        };
        for e in sessions::each(self.busy) {
            let i = e as usize;
            least = least.or_smaller(self.room[i], self.count[i], 0, sessions::only(e));
        }
        least
    }

    // What is left of the busy links, over a denominator that is so many times as large.
    fn grow(&mut self, by: u64)
        requires { (by ≤ 32) × (length self.old.room ≡ 64) × ((e : ℕ) → e < 64 → get_or self.old.room e 0 ≤ parts_limit) }
        ensures { Grown self.old.busy by self.old.room self.new.room × (self.new ≡ record self.old { room = self.new.room }) }
    {
        if by == 1 {
            return;
        }
        for e in sessions::each(self.busy) {
            self.room[e as usize] *= by;
        }
    }

    // Session s leaves the link of a path byte, where it is not yet fixed: the share is taken from the link, which remembers s if nobody is left.
    fn leave(&mut self, e: u8, s: u32, share: u64)
        requires { (s < 32) × Whole self.old × Leavable (eqb e) s share self.old }
        ensures { Leaves (eqb e) s share self.old self.new }
    {
        if 64 <= e {
            return;
        }
        let i = e as usize;
        if !sessions::has(self.at[i], s) {
            return;
        }
        let others = sessions::cut(self.at[i], s);
        self.at[i] = others;
        self.room[i] -= share;
        self.count[i] -= 1;
        if others == 0 {
            self.last[i] = s;
            self.busy = sessions::cut(self.busy, e as u32);
        }
    }

    // Session s leaves all links of its path.
    fn leave_path(&mut self, path: &[u8; 256], s: u32, share: u64)
        requires { (s < 32) × Whole self.old × Leavable (λ e. crosses_of path.now e s) s share self.old }
        ensures { Leaves (λ e. crosses_of path.now e s) s share self.old self.new }
    {
        let from = s as usize * 8;
        for e in &path[from..from + 8] {
            self.leave(*e, s, share);
        }
    }

    // The chosen sessions leave all links of their paths.
    fn leave_all(&mut self, path: &[u8; 256], chosen: u32, share: u64)
        requires { Enough share self.old }
        ensures { Without path.now chosen share self.old self.new }
    {
        for s in sessions::each(chosen) {
            self.leave_path(path, s, share);
        }
    }
}

impl Given {
    // A rate after a round.
    fn rate_after(self, rate: u64, s: u32) -> u64
        requires { GivenFits self × (rate ≤ parts_limit) × (s < 32) }
        ensures { result ≡ rate_after self rate s }
    {
        if sessions::has(self.chosen, s) {
            return self.room;
        }
        rate * self.count
    }

    // The rates of the fixed sessions after a round, over the denominator den * count.
    fn rates_after(self, rate: &mut [u64; 32], these: u32)
        requires { GivenFits self × RatesFit rate.old these self }
        ensures { RatesAfter rate.old self rate.new }
    {
        for s in sessions::each(these) {
            let i = s as usize;
            rate[i] = self.rate_after(rate[i], s);
        }
    }
}

// The max-min fair rates of the declared sessions. Before the first round nobody is fixed, and all of each capacity is left. A link where all are fixed
// keeps what it had left then, in parts of the denominator of that round.
// 01: "all sessions not yet fixed at every link with that share get it", "and the round repeats".
pub fn filled(d: Declared) -> Fixed
    requires { Ranges d }
    ensures { Filled d result }
{
    let mut links = Links {
        busy: 0,
        room: d.capacity,
        at: [0; 64],
        count: [0; 64],
        last: [0; 64],
    };
    links.join_all(&d.path, d.sessions);
    links.count_all();
    let mut rate = [0; 32];
    let mut den: u64 = 1;
    let mut opens = d.sessions;
    while opens != 0 {
        let least = links.least().or_own(den, opens, &d);
        let chosen = least.own | search::all_at(&d.path, opens, least.links);
        let given = Given {
            room: least.room,
            count: least.count,
            chosen,
        };
        links.grow(given.count);
        links.leave_all(&d.path, chosen, given.room);
        opens = opens & !chosen;
        given.rates_after(&mut rate, d.sessions & !opens);
        den = den * given.count;
    }
    Fixed {
        den,
        rate,
        room: links.room,
        last: links.last,
    }
}
