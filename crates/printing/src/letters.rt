// The letters of identifiers, as the numbers that fields are set to: the first is the lowest byte.
macro_rules! letters {
    ($four:literal) => {
        ($four[0] as u64)
            + (($four[1] as u64) << 8)
            + (($four[2] as u64) << 16)
            + (($four[3] as u64) << 24)
    };
}

const AARU: u64 = letters!(b"AARU");

const DICM: u64 = letters!(b"DICM");

const FRMT: u64 = letters!(b"FRMT");

const FRMX: u64 = letters!(b"FRMX");

pub const AARUFRMT: u64 = AARU + (FRMT << 32);

pub const AARUFRMX: u64 = AARU + (FRMX << 32);

pub const DICMFRMT: u64 = DICM + (FRMT << 32);

pub const IDX2: u64 = letters!(b"IDX2");

pub const INDX: u64 = letters!(b"INDX");

pub const DDT: u64 = letters!(b"DDT*");

pub const DDT2: u64 = letters!(b"DDT2");

pub const DBLK: u64 = letters!(b"DBLK");

pub const DBLX: u64 = letters!(b"DBLX");

pub const CKSM: u64 = letters!(b"CKSM");

pub const NOTE: u64 = letters!(b"NOTE");
