// The parts of a line: words, decimal numbers, and records in hex.
ghost use Rattle.std.specs.Prelude.{◌+◌, ◌≤◌, length};

// A decimal number is below this.
const LIMIT: u64 = 1_000_000_000_000;

// The word that a text starts with, up to a space or the text's end, and what stands behind the space.
pub fn word(s: &[u8]) -> (&[u8], &[u8])
    ensures { length result.0.now + length result.1.now ≤ length s.now }
{
    match s.iter().position(|b| *b == b' ') {
        Some(i) => (&s[..i], &s[i + 1..]),
        None => (s, &[]),
    }
}

// A name: bytes of 0 before it are no part of it.
pub fn without_zeros(word: &[u8]) -> &[u8] {
    match word.iter().position(|b| *b != 0) {
        Some(i) => &word[i..],
        None => &[],
    }
}

// A digit's value, also in hex.
fn digit(b: u8) -> Option<u8> {
    match b {
        b'0'..=b'9' => Some(b - b'0'),
        b'a'..=b'f' => Some(b - b'a' + 10),
        _ => None,
    }
}

// A decimal number with one digit more. At twice the limit the number begins anew.
fn with_digit(n: u64, b: u8) -> Option<u64> {
    let d = digit(b).filter(|d| *d < 10)?;
    if n == 2 * LIMIT {
        return Some(u64::from(d));
    }
    if LIMIT <= n {
        return None;
    }
    Some(n * 10 + u64::from(d))
}

// The decimal number that a text starts with, and what stands behind it.
pub fn number(s: &[u8]) -> Option<(u64, &[u8])> {
    let (digits, more) = word(s);
    let (first, others) = digits.split_first()?;
    let mut n = with_digit(0, *first)?;
    for b in others {
        n = with_digit(n, *b)?;
    }
    (n < LIMIT).then_some((n, more))
}

// The records that a text writes in hex, with spaces for the reader.
pub fn records<'a>(s: &[u8], input: &'a mut [u8; 65536]) -> Option<&'a [u8]> {
    let mut digits = s.iter().filter(|b| **b != b' ');
    for n in 0..input.len() {
        let Some(high) = digits.next() else {
            return Some(&input[..n]);
        };
        let low = digits.next()?;
        input[n] = digit(*high)? << 4 | digit(*low)?;
    }
    match digits.next() {
        Some(_) => None,
        None => Some(input),
    }
}
