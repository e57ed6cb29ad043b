// Two data blocks, one of them damaged: the first refusal by rising address, whichever check finds it; and an index that names a block
// twice.
use super::asks::Question::Disc;
use super::calls::Call::{Commit, Create, Rollback};
use super::script::Step;
use super::script::Step::{Ask, Crc, Fresh, Make, Set};
use printing::letters::{DBLK, DDT, IDX2};

// Where the records of the second commit are; address 1 lies in its block, 0 and 2 in the first one's.
const BLOCK: u64 = 382;

const TABLE: u64 = 422;

// An index made by hand, behind the image, and the first halves of its entries.
const INDEX: u64 = 563;

const TABLE_TYPE: u64 = DDT + (1 << 32); // dataType 1

const BLOCK_TYPE: u64 = DBLK + (1 << 32);

const CASES: &[Step] = &[
    Fresh(900),
    Make("P1", Create(3, 64, 4, 5)),
    Make("P2\nAAAABBBB", Commit(213, &[0, 2], 4, 6)),
    Make("a second block, address 1\nCCCC", Commit(382, &[1], 4, 7)),
    Set(BLOCK + 28, 8, 0), // crc64
    Make("commit, address 1 is 27\n", Commit(563, &[], 4, 8)),
    Crc(BLOCK + 28, BLOCK + 36, 4),
    Set(TABLE + 65, 8, 2 * 177), // entry 2: no block there
    Crc(TABLE + 33, TABLE + 49, 24),
    Crc(TABLE + 41, TABLE + 49, 24),
    Make("commit, address 2 is 22\n", Commit(563, &[], 4, 8)),
    Set(BLOCK + 28, 8, 0), // crc64
    Ask("address 1 is 27, address 2 is 22", Disc(563)),
    Make("commit, 27 of the lower address\n", Commit(563, &[], 4, 8)),
    Set(TABLE + 49, 8, 2 * BLOCK + 1), // entry 0: an item too many, of the damaged block
    Crc(TABLE + 33, TABLE + 49, 24),
    Crc(TABLE + 41, TABLE + 49, 24),
    Ask(
        "address 0 is 26 in the damaged block, address 1 is 27, address 2 is 22",
        Disc(563),
    ),
    Make(
        "commit, 26 before 27, of the lower address\n",
        Commit(563, &[], 4, 8),
    ),
    Set(TABLE + 49, 8, 2 * BLOCK), // entry 0: an item of the damaged block
    Crc(TABLE + 33, TABLE + 49, 24),
    Crc(TABLE + 41, TABLE + 49, 24),
    Make("commit, addresses 0 and 1 are 27\n", Commit(563, &[], 4, 8)),
    Set(TABLE + 49, 8, 426), // entry 0
    Set(TABLE + 65, 8, 427), // entry 2
    Crc(TABLE + 33, TABLE + 49, 24),
    Crc(TABLE + 41, TABLE + 49, 24),
    Set(BLOCK + 6, 2, 1), // compression
    Make("commit, 24 before 27, address 1\n", Commit(563, &[], 4, 8)),
    Set(BLOCK + 6, 2, 0), // compression
    Set(BLOCK + 12, 8, 0x3e8_0000_03e8), // cmpLength and length
    Make("commit, 23 before 27, address 1\n", Commit(563, &[], 4, 8)),
    Set(BLOCK + 16, 4, 4), // length
    Make("commit, 25 before 27, address 1\n", Commit(563, &[], 4, 8)),
    Set(BLOCK + 12, 4, 4), // cmpLength
    Crc(BLOCK + 28, BLOCK + 36, 4),
    Set(INDEX, 4, IDX2), // identifier
    Set(INDEX + 4, 8, 4), // entries
    Set(INDEX + 20, 8, BLOCK_TYPE),
    Set(INDEX + 28, 8, BLOCK),
    Set(INDEX + 36, 8, TABLE_TYPE),
    Set(INDEX + 44, 8, TABLE),
    Set(INDEX + 52, 8, BLOCK_TYPE),
    Set(INDEX + 60, 8, BLOCK),
    Set(INDEX + 68, 8, BLOCK_TYPE),
    Set(INDEX + 76, 8, 213),
    Crc(INDEX + 12, INDEX + 20, 64),
    Make(
        "an index that names the second block twice",
        Rollback(647, INDEX, 9),
    ),
    Set(BLOCK + 20, 8, 0), // cmpCrc64
    Make("commit, address 1 is 27\nDDDD", Commit(647, &[1], 4, 10)),
    Crc(BLOCK + 20, BLOCK + 36, 4),
    Make(
        "commit, no address is refused\nDDDD",
        Commit(647, &[1], 4, 10),
    ),
];

pub const SCRIPTS: &[&[Step]] = &[CASES];
