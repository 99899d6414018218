// The packets in flight, in order of sending.
ghost use Rattle.std.specs.Prelude.{◌≡◌, ◌<◌};
ghost use Rattle.table.specs.Words.{appended, count_of, kind_of, packet_from, packet_of, packet_words, put_count, put_packet, removed};

use super::fields::{bit, block_at, eta_code, eta_of, field, put_block, tau_code, tau_of};
use fractions::Rate;
use tasks::{Kind, Packet};

fn kind_of(b: [u64; 8]) -> Kind
    ensures { result ≡ kind_of b }
{
    let code = b[3];
    let rate = Rate::kept(b[4], b[5]);
    let name = eta_of(b[6]);
    let what = tau_of(b[7]);
    match code {
        1 => Kind::Probe(rate, name),
        2 => Kind::Response(what, rate, name),
        3 => Kind::Update,
        4 => Kind::Bottleneck,
        5 => Kind::SetBottleneck(b[7] == 1),
        6 => Kind::Leave,
        _ => Kind::Join(rate, name),
    }
}

fn packet_from(b: [u64; 8]) -> Packet
    ensures { result ≡ packet_from b }
{
    let session = field(b[0], 31);
    let hop = field(b[1], 9);
    let kind = kind_of(b);
    Packet {
        session: session as u32,
        hop: hop as u32,
        down: b[2] == 1,
        kind,
    }
}

// The words of a packet; those that its kind does not use are 0.
fn packet_words(p: Packet) -> [u64; 8]
    ensures { result ≡ packet_words p }
{
    let s = p.session as u64;
    let h = p.hop as u64;
    let d = bit(p.down);
    let kind = p.kind;
    match kind {
        Kind::Join(rate, name) => [s, h, d, 0, rate.num, rate.den, eta_code(name), 0],
        Kind::Probe(rate, name) => [s, h, d, 1, rate.num, rate.den, eta_code(name), 0],
        Kind::Response(what, rate, name) => [
            s,
            h,
            d,
            2,
            rate.num,
            rate.den,
            eta_code(name),
            tau_code(what),
        ],
        Kind::Update => [s, h, d, 3, 0, 0, 0, 0],
        Kind::Bottleneck => [s, h, d, 4, 0, 0, 0, 0],
        Kind::SetBottleneck(beta) => [s, h, d, 5, 0, 0, 0, bit(beta)],
        Kind::Leave => [s, h, d, 6, 0, 0, 0, 0],
    }
}

pub fn packet_at(t: &[u64; 9153], i: usize) -> Packet
    requires { i < 256 }
    ensures { result ≡ packet_of t.now i }
{
    let b = block_at(t, 7104 + i * 8);
    packet_from(b)
}

fn put_packet(t: &mut [u64; 9153], i: usize, p: Packet)
    requires { i < 256 }
    ensures { t.new ≡ put_packet t.old i p }
{
    let b = packet_words(p);
    put_block(t, 7104 + i * 8, b);
}

// How many packets are in flight.
pub fn count(t: &[u64; 9153]) -> usize
    ensures { result ≡ count_of t.now }
{
    let n = field(t[9152], 256);
    n as usize
}

fn put_count(t: &mut [u64; 9153], n: usize)
    ensures { t.new ≡ put_count t.old n }
{
    t[9152] = n as u64;
}

// One packet more at the end, or nothing where 256 are in flight.
pub fn append(t: &mut [u64; 9153], p: Packet)
    ensures { t.new ≡ appended t.old p }
{
    let n = count(t);
    if n < 256 {
        put_packet(t, n, p);
        put_count(t, n + 1);
    }
}

// The packets behind i move up by one place.
pub fn remove(t: &mut [u64; 9153], i: usize)
    requires { i < count_of t.old }
    ensures { t.new ≡ removed t.old i }
{
    let n = count(t);
    let a = 7104 + i * 8;
    t.copy_within(a + 8..7104 + n * 8, a);
    put_count(t, n - 1);
}
