// The eight tables of 256 entries, one after the other. Table k serves the byte that stands 8 (7 - k) bits up in a
// register that is to take 256 shifts: the first 56 - 8 k of these bring the byte down, and 200 + 8 k are left for the
// table. Filled by linearity: the entry of a byte is that of its highest bit, exclusive-or that of the rest.
ghost use Rattle.std.specs.Prelude.{◌≡◌, ◌+◌, ◌*◌, ◌^◌, ◌<◌, length};
ghost use Rattle.crc64.specs.Crc.{shifts};
ghost use Rattle.crc64.specs.Internal.{entry, power, Filled, Tables};

use super::register;

// The entries of the 64 single bits, from one chain of shifts.
fn powers() -> [u64; 64]
    ensures { Filled power 64 result 64 }
{
    let mut p = [0u64; 64];
    let mut x = register::shifts(128, 200);
    // 64 iterations
    for power in &mut p {
        *power = x;
        x = register::shift(x);
    }
    p
}

// Table k for the bytes whose highest bit is 2^j, from those below and x, the entry of the bit.
fn double(t: &mut [u64; 2048], k: usize, j: usize, x: u64)
    requires k_bound { k < 8 }
    requires j_bound { j < 8 }
    requires x_value { x ≡ shifts (200 + 8 * k) (2 ^ j) }
    requires below_filled { Filled entry 2048 t.old (256 * k + 2 ^ j) }
    ensures { Filled entry 2048 t.new (256 * k + 2 ^ (j + 1)) }
{
    let half: usize = 1 << j;
    // 2^j iterations, at most 128
    for m in 0..half {
        t[256 * k + half + m] = t[256 * k + m] ^ x;
    }
}

// Table k.
fn table(t: &mut [u64; 2048], k: usize, p: &[u64; 64])
    requires k_bound { k < 8 }
    requires powers_filled { Filled power 64 p.now 64 }
    requires below_filled { Filled entry 2048 t.old (256 * k) }
    ensures { Filled entry 2048 t.new (256 * k + 256) }
{
    t[256 * k] = 0;
    // 8 iterations
    for j in 0..8 {
        double(t, k, j, p[8 * k + 7 - j]);
    }
}

// All eight.
pub fn fill(t: &mut [u64; 2048])
    requires { length t.old ≡ 2048 }
    ensures { Tables t.new }
{
    let p = powers();
    // 8 iterations
    for k in 0..8 {
        table(t, k, &p);
    }
}
