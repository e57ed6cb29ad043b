// Reading: for every two neighbours in document 01's order of checks an image to which both apply, and the number and place that it gives;
// beside them what one check finds alone. Each script bends the disc BLOCK_LAST, but the first, which reads TABLE_LAST.
use super::ONES;
use super::disc::{BLOCK_LAST, TABLE_LAST};
use super::script::Question::Locate;
use super::script::Step::{Ask, Cmp, Crc, Fresh, Set};
use super::script::{Script, Step};

// Where the records of BLOCK_LAST are, and how many bytes it has, as TABLE_LAST does.
const INDEX: u64 = 104;

const BLOCK_ENTRY: u64 = 140;

const TABLE: u64 = 156;

const BLOCK: u64 = 229;

const WHOLE: u64 = 273;

// Past the end of the table there is nothing, which counts as an entry of 0; and an entry of 0 names no block. The places of the
// entries of 2^32 and of 2^61 are those of entry 0 in 32 and in 64 bits.
const ADDRESS_CASES: &[Step] = &[
    Ask("20 before 21, address 3", WHOLE, Locate(3)),
    Ask("20, address 2^32", WHOLE, Locate(0x1_0000_0000)),
    Ask("20, address 2^61", WHOLE, Locate(0x2000_0000_0000_0000)),
    Ask("20, address -1", WHOLE, Locate(-1)),
    Ask("21 before 22, not written", WHOLE, Locate(1)),
];

const POINTER_CASES: &[Step] = &[
    Ask("index, table, block, address 0", WHOLE, Locate(0)),
    Ask("index, table, block, address 2", WHOLE, Locate(2)),
    Set(TABLE + 49, 8, 2 * 238), // entry 0
    Cmp(TABLE + 33, 24),
    Crc(TABLE + 41, 24),
    Ask("22 before 23, header past the end", WHOLE, Locate(0)),
    Set(TABLE + 8, 1, 0), // shift
    Set(TABLE + 49, 8, ONES), // entry 0
    Cmp(TABLE + 33, 24),
    Crc(TABLE + 41, 24),
    Ask("22, block 2^64 - 1, wraps to 35", WHOLE, Locate(0)),
    Set(TABLE + 49, 8, 0x1_0000_00e5), // entry 0
    Cmp(TABLE + 33, 24),
    Crc(TABLE + 41, 24),
    Ask("22, block 2^32 + 229", WHOLE, Locate(0)),
    Set(TABLE + 49, 8, TABLE), // entry 0
    Cmp(TABLE + 33, 24),
    Crc(TABLE + 41, 24),
    Ask("22, a table there", WHOLE, Locate(0)),
    Fresh,
    Set(BLOCK_ENTRY + 4, 4, 2), // dataType
    Crc(INDEX + 12, 32),
    Ask("22, block's dataType 2", WHOLE, Locate(0)),
    Ask("22, the same, address 2", WHOLE, Locate(2)),
];

// From case to case the next fault is added, then the earlier one mended.
const BLOCK_CASES: &[Step] = &[
    Set(BLOCK + 6, 2, 1), // compression
    Ask("23 before 24, header past the end", BLOCK + 35, Locate(0)),
    Set(BLOCK + 4, 2, 2), // type
    Ask("24 before 25, compression 1, type 2", WHOLE, Locate(0)),
    Set(BLOCK + 6, 2, 0), // compression
    Ask("25 before 23, type 2, payload cut", WHOLE - 1, Locate(0)),
    Set(BLOCK + 4, 2, 1), // type
    Set(BLOCK + 8, 4, 8), // sectorSize
    Ask("23 before 26, payload cut, item 1", WHOLE - 1, Locate(2)),
    Ask("26, item 1 of 1", WHOLE, Locate(2)),
    Ask("sectorSize 8, item 0 of 1", WHOLE, Locate(0)),
    Set(BLOCK + 28, 8, 0), // crc64
    Ask("26 before 27, item 1 of 1, crc64 0", WHOLE, Locate(2)),
    Ask("27, crc64 0", WHOLE, Locate(0)),
    Fresh,
    Set(BLOCK + 20, 8, 0), // cmpCrc64
    Ask("27, cmpCrc64 0", WHOLE, Locate(0)),
];

const BLOCK_LENGTH_CASES: &[Step] = &[
    Set(BLOCK + 8, 4, 0), // sectorSize
    Ask("25, sectorSize 0", WHOLE, Locate(0)),
    Set(BLOCK + 8, 4, 3), // sectorSize
    Ask("25, length 8, sectorSize 3", WHOLE, Locate(0)),
    Fresh,
    Set(BLOCK + 12, 4, 4), // cmpLength
    Ask("25, cmpLength 4", WHOLE, Locate(0)),
];

pub const SCRIPTS: &[Script] = &[
    Script(TABLE_LAST, ADDRESS_CASES),
    Script(BLOCK_LAST, POINTER_CASES),
    Script(BLOCK_LAST, BLOCK_CASES),
    Script(BLOCK_LAST, BLOCK_LENGTH_CASES),
];
