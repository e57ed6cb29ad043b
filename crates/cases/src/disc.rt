// The discs that the cases read, as document 01 and 2/13 lay them out, in a buffer of 512 bytes. Their checksums are numbers here, and
// don't come from the code that is tested.
use printing::letters::{AARUFRMT, DBLK, DDT, DDT2, IDX2};
use printing::set;

// The widths of a record's fields, where it starts, and the fields' numbers.
#[derive(Clone, Copy)]
pub struct Record(&'static [u64], u64, &'static [u64]);

// Records that are written one after another.
pub type Disc = &'static [&'static [Record]];

// The widths of the fields of the header's identifier and name, the rest of the header, an index of two entries, a table of three
// entries and a data block of two items.
const ID: &[u64] = &[8, 8, 8, 8, 8, 8, 8, 8, 8];

const HD: &[u64] = &[1, 1, 1, 1, 4, 8, 8, 8];

const IX: &[u64] = &[4, 8, 8, 4, 4, 8, 4, 4, 8];

const TB: &[u64] = &[4, 2, 2, 1, 8, 8, 8, 8, 8, 8, 8, 8];

const DB: &[u64] = &[4, 2, 2, 4, 4, 4, 8, 8, 4, 4];

// Of a table of the second kind: its header up to `start`, the rest of it, and five entries.
const TH: &[u64] = &[4, 2, 2, 1, 1, 8, 2, 8, 2, 8];

const TS: &[u64] = &[1, 1, 1, 1, 8, 8, 8, 8, 8];

const TE: &[u64] = &[4, 4, 4, 4, 4];

// The sectors' bytes.
const AAAA: u64 = 0x4141_4141;

const BBBB: u64 = 0x4242_4242;

// Eight of the application's 64 bytes: each is 7.
const S7: u64 = 0x0707_0707_0707_0707;

// The checksum of "AAAABBBB", and those of the index and of the table of each disc, in the order in which the discs stand below.
const AB: u64 = 0x5d97_66a1_2101_fcdb;

const I1: u64 = 0xf172_fa15_c1a1_63bb;

const T1: u64 = 0xb696_82ec_4348_736c;

const I2: u64 = 0xf9ac_376b_3a58_54cf;

const T2: u64 = 0xd31c_fe8c_8cb7_66bb;

const I3: u64 = 0xf169_dc50_fbf3_3939;

const T3: u64 = 0x53eb_8c65_0656_21cb;

const I4: u64 = 0x7cf3_c201_492c_31c6;

const T4: u64 = 0x848a_dd10_6b19_e596;

const I5: u64 = 0xfed0_f595_f30d_fc62;

const T5: u64 = 0x6bde_8ce2_ae9b_9109;

const I6: u64 = 0x40ae_3ad8_e2cf_c69a;

const T6: u64 = 0x7977_783a_9519_389d;

// What of the header no read looks at is what `format`'s worked disc has.
// P1: table 104, index 177, used 213. Its index has one entry: the zeros of the second lie past the end.
const CREATED: &[Record] = &[
    Record(ID, 0, &[AARUFRMT, S7, S7, S7, S7, S7, S7, S7, S7]),
    Record(HD, 72, &[2, 0, 1, 2, 3, 177, 4, 5]),
    Record(TB, 104, &[DDT, 1, 0, 0, 3, 24, 24, T1, T1, 0, 0, 0]),
    Record(IX, 177, &[IDX2, 1, I1, DDT, 1, 104, 0, 0, 0]),
];

// P2, what is written over P1: block 213, table 257, index 330, used 382, shift 1, entries 426, 0, 427.
const COMMITTED: &[Record] = &[
    Record(HD, 72, &[2, 0, 1, 2, 3, 330, 4, 6]),
    Record(DB, 213, &[DBLK, 1, 0, 4, 8, 8, AB, AB, AAAA, BBBB]),
    Record(TB, 257, &[DDT, 1, 0, 1, 3, 24, 24, T2, T2, 426, 0, 427]),
    Record(IX, 330, &[IDX2, 2, I2, DDT, 1, 257, DBLK, 1, 213]),
];

// P3, what is written over P2: no block, table 382, index 455, used 507, entries 426, 426, 427.
const COMMITTED_AGAIN: &[Record] = &[
    Record(HD, 72, &[2, 0, 1, 2, 3, 455, 4, 7]),
    Record(TB, 382, &[DDT, 1, 0, 1, 3, 24, 24, T3, T3, 426, 426, 427]),
    Record(IX, 455, &[IDX2, 2, I3, DDT, 1, 382, DBLK, 1, 213]),
];

pub const P1: Disc = &[CREATED];

pub const P2: Disc = &[CREATED, COMMITTED];

pub const P3: Disc = &[CREATED, COMMITTED, COMMITTED_AGAIN];

// P2's sectors in 273 bytes: index 104, block 156, and the table last, at 200, where the image's end can cut it short.
pub const TABLE_LAST: Disc = &[&[
    Record(ID, 0, &[AARUFRMT, S7, S7, S7, S7, S7, S7, S7, S7]),
    Record(HD, 72, &[2, 0, 1, 2, 3, 104, 4, 5]),
    Record(IX, 104, &[IDX2, 2, I4, DDT, 1, 200, DBLK, 1, 156]),
    Record(DB, 156, &[DBLK, 1, 0, 4, 8, 8, AB, AB, AAAA, BBBB]),
    Record(TB, 200, &[DDT, 1, 0, 1, 3, 24, 24, T4, T4, 312, 0, 313]),
]];

// The same in another order: index 104, table 156, and the block last, at 229.
pub const BLOCK_LAST: Disc = &[&[
    Record(ID, 0, &[AARUFRMT, S7, S7, S7, S7, S7, S7, S7, S7]),
    Record(HD, 72, &[2, 0, 1, 2, 3, 104, 4, 5]),
    Record(IX, 104, &[IDX2, 2, I5, DDT, 1, 156, DBLK, 1, 229]),
    Record(TB, 156, &[DDT, 1, 0, 1, 3, 24, 24, T5, T5, 458, 0, 459]),
    Record(DB, 229, &[DBLK, 1, 0, 4, 8, 8, AB, AB, AAAA, BBBB]),
]];

// A table of the second kind (11/13): index 104, block 156, and the table last, at 200; negative 1, blocks 5, overflow 1, alignment 2, dataShift 1. What
// is not looked at is 9. Its entries are for address -1, item 1 of the block at 39 x 4; 0, not dumped; 1, item 0; 2, a status of 2; 3, item 1 of a block
// at 40 x 4, which no index entry names.
pub const SECOND: Disc = &[&[
    Record(ID, 0, &[AARUFRMT, S7, S7, S7, S7, S7, S7, S7, S7]),
    Record(HD, 72, &[2, 0, 1, 2, 3, 104, 4, 5]),
    Record(IX, 104, &[IDX2, 2, I6, DDT2, 1, 200, DBLK, 1, 156]),
    Record(DB, 156, &[DBLK, 1, 0, 4, 8, 8, AB, AB, AAAA, BBBB]),
    Record(TH, 200, &[DDT2, 1, 0, 1, 9, 9, 1, 5, 1, 9]),
    Record(TS, 238, &[2, 1, 9, 0, 5, 20, 20, T6, T6]),
    Record(
        TE,
        282,
        &[0x1000_004f, 0x4e, 0x1000_004e, 0x2000_004e, 0x1000_0051],
    ),
]];

// Writes a record's fields one after another.
fn write(image: &mut [u8], record: Record) {
    let Record(widths, start, numbers) = record;
    let mut at = start;
    for (width, number) in widths.iter().zip(numbers) {
        set(image, at, *width, *number);
        at = at.saturating_add(*width);
    }
}

// The disc's image, and zeros behind it.
pub fn laid(disc: Disc) -> [u8; 512] {
    let mut image = [0u8; 512];
    for records in disc {
        for record in *records {
            write(&mut image, *record);
        }
    }
    image
}
