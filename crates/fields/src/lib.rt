// Internal: bytes in a lent slice. Little-endian numbers are read and written; runs of bytes are taken, copied, cleared
// and compared. Offsets and counts are u64, as in the format. And how large a signed number is.
#![tactic(auto)]

ghost use Rattle.std.specs.Prelude.{◌≡◌, ◌+◌, ◌-◌, ◌≤◌, length, replicate, nat_abs};
ghost use Rattle.fields.specs.Bytes.{part, field, to_le, overwrite, equal};

// How many bytes lie from `at` to the end, none if `at` is past it. A test for "past the end" by `room` adds nothing
// that could wrap: n bytes at `at` lie past the end exactly if `room(s, at) < n`, for n above 0.
pub fn room(s: &[u8], at: u64) -> u64
    ensures { result ≡ length s.now - at }
{
    (s.len() as u64).saturating_sub(at)
}

// The n bytes from `at`.
pub fn part<'a>(s: &'a [u8], at: u64, n: u64) -> &'a [u8]
    requires { at + n ≤ length s.now }
    ensures { result.now ≡ part s.now at n }
{
    let start = at as usize;
    let end = (at + n) as usize;
    &s[start..end]
}

// The number in the k bytes from `at`, the lowest first.
pub fn get(s: &[u8], at: u64, k: u64) -> u64
    requires { (at + k ≤ length s.now) × (k ≤ 8) }
    ensures { result ≡ field s.now at k }
{
    let mut acc: u64 = 0;
    // k iterations, the highest byte first
    for i in (0..k).rev() {
        acc = acc * 256 + (s[(at + i) as usize] as u64);
    }
    acc
}

// The number in the two bytes from `at`, the lower first: `get` of 2 bytes, as a type that says how large it can be.
pub fn get_short(s: &[u8], at: u64) -> u16
    requires { at + 2 ≤ length s.now }
    ensures { result ≡ field s.now at 2 }
{
    let p = at as usize;
    u16::from_le_bytes([s[p], s[p + 1]])
}

// Writes the k lowest bytes of v at `at`, the lowest first.
pub fn put(buf: &mut [u8], at: u64, k: u64, v: u64)
    requires { at + k ≤ length buf.old }
    ensures { buf.new ≡ overwrite buf.old at (to_le k v) }
{
    let mut rest = v;
    // k iterations
    for i in 0..k {
        let p = (at + i) as usize;
        buf[p] = (rest % 256) as u8;
        rest /= 256;
    }
}

// Copies the whole of src to `at`.
pub fn copy(buf: &mut [u8], at: u64, src: &[u8])
    requires { at + length src.now ≤ length buf.old }
    ensures { buf.new ≡ overwrite buf.old at src.now }
{
    let start = at as usize;
    // an iteration for each byte of src; `copy_from_slice` would call C's `memmove`, and this calls nothing of C's
    for (i, byte) in src.iter().enumerate() {
        buf[start + i] = *byte;
    }
}

// Writes n zeros at `at`.
#[tactic(auto, using(crate::proofs::Overwrite::put_overwrite, std::proofs::lemmas::Grind::common_steps))]
pub fn clear(buf: &mut [u8], at: u64, n: u64)
    requires { at + n ≤ length buf.old }
    ensures { buf.new ≡ overwrite buf.old at (replicate n 0) }
{
    let start = at as usize;
    let end = (at + n) as usize;
    // n iterations; `fill(0)`, which writes the last byte apart, takes up to 1.2 times as long
    for byte in &mut buf[start..end] {
        *byte = 0;
    }
}

// Whether the bytes of s from `at` are those of t.
#[tactic(auto, using(crate::proofs::Equal::equal_pointwise))]
pub fn matches(s: &[u8], at: u64, t: &[u8]) -> bool
    requires { at + length t.now ≤ length s.now }
    ensures { result ≡ equal (part s.now at (length t.now)) t.now }
{
    // linear in the length of t at most
    part(s, at, t.len() as u64) == t
}

// Whether the bytes of s from `at` are these letters, in that order; eight at most, which are compared at once, as
// numbers: at four letters that are there `matches` takes 2.4 times the instructions.
pub fn spells(s: &[u8], at: u64, letters: &[u8]) -> bool
    requires { (at + length letters.now ≤ length s.now) × (length letters.now ≤ 8) }
    ensures { result ≡ equal (part s.now at (length letters.now)) letters.now }
{
    let k = letters.len() as u64;
    get(s, at, k) == get(letters, 0, k)
}

// How far x is from 0; of the least number too, which has no negative of its type.
pub fn magnitude(x: i64) -> u64
    ensures { result ≡ nat_abs x }
{
    x.unsigned_abs()
}
