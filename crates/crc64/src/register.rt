// The register, a bit at a time.
ghost use Rattle.std.specs.Prelude.{◌≡◌};
ghost use Rattle.crc64.specs.Crc.{shift, shifts, add_byte, run};

// Shift right by one and, if a one fell out, exclusive-or the polynomial.
pub fn shift(register: u64) -> u64
    ensures { result ≡ shift register }
{
    if register % 2 == 1 {
        (register >> 1) ^ 0xC96C5795D7870F42
    } else {
        register >> 1
    }
}

// n shifts.
pub fn shifts(register: u64, n: u32) -> u64
    ensures { result ≡ shifts n register }
{
    let mut x = register;
    // n iterations
    for _i in 0..n {
        x = shift(x);
    }
    x
}

// One byte into the register.
fn add_byte(register: u64, byte: u8) -> u64
    ensures { result ≡ add_byte register byte }
{
    shifts(register ^ (byte as u64), 8)
}

// The bytes of s into the register.
pub fn update(register: u64, s: &[u8]) -> u64
    ensures { result ≡ run register s.now }
{
    let mut x = register;
    // an iteration for each byte
    for b in s {
        x = add_byte(x, *b);
    }
    x
}
