// Whether the link bytes of a session's record are a path: refusal 6.
ghost use Rattle.std.specs.Prelude.{◌≡◌, ◌+◌, ◌≤◌, length};
ghost use Rattle.records.specs.Format.{links_ok, is_new, differ, rest_ok, path_ok};

use super::{LINKS, PATH};

// Whether the n used bytes of a path are links.
fn links_ok(s: &[u8], at: usize, n: usize) -> bool
    requires { (n ≤ 8) × (at + 8 ≤ length s.now) }
    ensures { result ≡ links_ok s.now at n }
{
    s[at..at + n].iter().all(|e| *e < LINKS)
}

// Whether none of the first n bytes of a path is this link.
fn is_new(s: &[u8], at: usize, n: usize, link: u8) -> bool
    requires { (n ≤ 8) × (at + 8 ≤ length s.now) }
    ensures { result ≡ is_new s.now at n link }
{
    s[at..at + n].iter().all(|e| *e != link)
}

// Whether no link stands twice in a path.
fn links_differ(s: &[u8], at: usize, n: usize) -> bool
    requires { (n ≤ 8) × (at + 8 ≤ length s.now) }
    ensures { result ≡ differ s.now at n }
{
    (0..n).all(|h| is_new(s, at, h, s[at + h]))
}

// Whether the bytes that a path of n links does not use are 255.
fn rest_ok(s: &[u8], at: usize, n: usize) -> bool
    requires { (n ≤ 8) × (at + 8 ≤ length s.now) }
    ensures { result ≡ rest_ok s.now at n }
{
    s[at + n..at + PATH].iter().all(|e| *e == 255)
}

// Whether a path is one.
pub fn path_ok(s: &[u8], at: usize, n: usize) -> bool
    requires { at + 8 ≤ length s.now }
    ensures { result ≡ path_ok s.now at n }
{
    0 < n && n <= PATH && links_ok(s, at, n) && links_differ(s, at, n) && rest_ok(s, at, n)
}
