// Internal: exports of the checksum for the measurements of bench/, and for nothing else.
#![tactic(auto)]

ghost use Rattle.std.specs.Prelude.{◌≡◌};
ghost use Rattle.crc64.specs.Crc.{ones, run, crc_of};

#[unsafe(no_mangle)]
pub extern "C" fn bench_checksum(s: &[u8]) -> u64
    ensures { result ≡ crc_of s.now }
{
    crc64::checksum(s)
}

// The register at the end, not yet inverted; without tables.
#[unsafe(no_mangle)]
pub extern "C" fn bench_bitwise(s: &[u8]) -> u64
    ensures { result ≡ run ones s.now }
{
    crc64::update_bitwise(0xffff_ffff_ffff_ffff, s)
}

// The same by tables, whose filling is part of each call.
#[unsafe(no_mangle)]
pub extern "C" fn bench_by_tables(s: &[u8]) -> u64
    ensures { result ≡ run ones s.now }
{
    crc64::update_by_tables(0xffff_ffff_ffff_ffff, s)
}
