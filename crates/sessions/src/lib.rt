// Sets as words: of sessions with 32 bits, one bit a session (01, "Fractions"), and of links with 64.
#![tactic(auto)]

ghost use Rattle.std.specs.Prelude.{◌≡◌, ℕ, ◌^◌, ◌<◌, ◌≤◌, length};
ghost use Rattle.std.proofs.Common.{rules};
ghost use Rattle.std.specs.Int.Count.{ones_in, count_trailing_zeros};
ghost use Rattle.std.specs.Iterator.{at_most};
ghost use Rattle.sessions.specs.Set.{has_of, only_of, put, cut, members_from, GivesMember};

// A word that is a set, one digit a member. Each operation stands once, over the bits of a word of at most 64 digits.
pub trait Word: Copy + Drop {
    ghost WIDTH: { ℕ };

    // Its number.
    ghost value: { Self → ℕ };

    const WIDTH: u32;

    fn bits(self) -> u64
        ensures same { result ≡ value self }
        ensures within { result < 2 ^ WIDTH };

    fn from_bits(n: u64) -> Self
        requires { n < 2 ^ WIDTH }
        ensures { value result ≡ n };

    ghost at_most_64: { WIDTH ≤ 64 };
}

// A set of sessions.
impl Word for u32 {
    ghost WIDTH = { 32 };

    ghost value = { λ w. w };

    ghost at_most_64 = { Prim.search rules };

    const WIDTH: u32 = 32;

    fn bits(self) -> u64 {
        self as u64
    }

    fn from_bits(n: u64) -> u32 {
        n as u32
    }
}

// A set of links.
impl Word for u64 {
    ghost WIDTH = { 64 };

    ghost value = { λ w. w };

    ghost at_most_64 = { Prim.search rules };

    const WIDTH: u32 = 64;

    fn bits(self) -> u64 {
        self
    }

    fn from_bits(n: u64) -> u64 {
        n
    }
}

// The set of s alone.
pub fn only<W: Word>(s: u32) -> W
    requires { s < W.WIDTH }
    ensures { W.value result ≡ only_of s }
{
    W::from_bits(1u64 << (s as u64))
}

// The set with s.
pub fn put<W: Word>(w: W, s: u32) -> W
    requires { s < W.WIDTH }
    ensures { W.value result ≡ put s (W.value w) }
{
    W::from_bits(w.bits() | (1u64 << (s as u64)))
}

// The set without s.
pub fn cut<W: Word>(w: W, s: u32) -> W
    requires { s < W.WIDTH }
    ensures { W.value result ≡ cut s (W.value w) }
{
    W::from_bits(w.bits() & !(1u64 << (s as u64)))
}

// Whether s is a member: a number past the last digit never is.
pub fn has<W: Word>(w: W, s: u32) -> bool
    ensures { result ≡ has_of s (W.value w) }
{
    let n = w.bits();
    s < 64 && (n >> (s as u64)) % 2 == 1
}

// How many members: the count of ones.
pub fn size<W: Word>(w: W) -> u32
    ensures { result ≡ ones_in W.WIDTH (W.value w) }
{
    u64::count_ones(w.bits())
}

// The next to visit: the lowest set bit, or the width where there is none.
pub fn next<W: Word>(w: W) -> u32
    ensures { result ≡ count_trailing_zeros W.WIDTH (W.value w) }
{
    u64::trailing_zeros(w.bits()).min(W::WIDTH)
}

// The members that are left to visit, by rising number.
#[derive(Clone, Copy, Drop)]
pub struct Rising<W> {
    left: W,
}

impl<W: Word> Iterator for Rising<W> {
    type Item = u32;

    ghost next_gives = { λ s r t. GivesMember W.WIDTH (W.value s.left) r (W.value t.left) };

    ghost remaining = { λ s. at_most (length (members_from W.WIDTH 0 (W.value s.left))) };

    fn next(&mut self) -> Option<u32> {
        let s = next(self.left);
        if s == W::WIDTH {
            return None;
        }
        self.left = cut(self.left, s);
        Some(s)
    }
}

// The members by rising number: `for s in sessions::each(w)` visits each once.
pub fn each<W: Word>(w: W) -> Rising<W>
    ensures { result.left ≡ w }
{
    Rising { left: w }
}
