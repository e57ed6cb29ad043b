// Tables of the second kind (11/13). Each script bends the disc SECOND.
use super::disc::SECOND;
use super::script::Question::{Count, Locate};
use super::script::Step::{Ask, Cmp, Crc, Fresh, Set};
use super::script::{Script, Step};
use printing::letters::DDT;

// Where its records are, and how many bytes it has.
const INDEX: u64 = 104;

const BLOCK_ENTRY: u64 = 140;

const BLOCK: u64 = 156;

const TABLE: u64 = 200;

const ENTRIES: u64 = 282;

const WHOLE: u64 = 302;

const SECTOR_CASES: &[Step] = &[
    Ask("DDT2", WHOLE, Count),
    Ask("address -1", WHOLE, Locate(-1)),
    Ask("address 1", WHOLE, Locate(1)),
    Ask("20, address -2", WHOLE, Locate(-2)),
    Ask("20, address -65535", WHOLE, Locate(-65535)),
    Ask("20, address 4", WHOLE, Locate(4)),
    Ask("20, address 2^63 - 1", WHOLE, Locate(0x7fff_ffff_ffff_ffff)),
    Ask("21 before 22, not dumped", WHOLE, Locate(0)),
    Ask("73 before 22, status 2", WHOLE, Locate(2)),
    Ask("22, address 3", WHOLE, Locate(3)),
];

// From case to case the next fault is added, then the earlier one mended.
const TABLE_CASES: &[Step] = &[
    Set(TABLE + 6, 2, 1), // compression
    Ask("11 before 13, header past the end", TABLE + 81, Count),
    Set(TABLE + 8, 1, 2), // levels
    Ask("13 before 70, compression 1, levels 2", WHOLE, Count),
    Set(TABLE + 6, 2, 0), // compression
    Set(TABLE + 41, 1, 1), // sizeType
    Ask("70 before 71, levels 2, sizeType 1", WHOLE, Count),
    Set(TABLE + 8, 1, 1), // levels
    Set(TABLE + 20, 8, 1), // blocks
    Ask("71 before 72, sizeType 1, blocks 1", WHOLE, Count),
    Set(TABLE + 41, 1, 0), // sizeType
    Set(TABLE + 38, 1, 33), // alignment
    Ask("72 before 12, blocks 1, alignment 33", WHOLE, Count),
    Set(TABLE + 20, 8, 2), // blocks
    Ask("12 before 11, alignment 33, payload cut", WHOLE - 1, Count),
    Set(TABLE + 38, 1, 2), // alignment
    Set(TABLE + 39, 1, 33), // dataShift
    Ask("12, dataShift 33", WHOLE, Count),
    Set(TABLE + 39, 1, 1), // dataShift
    Set(TABLE + 42, 8, 4), // entries
    Ask("12, 4 entries, length 20", WHOLE, Count),
    Set(TABLE + 42, 8, 5), // entries
    Set(TABLE + 74, 8, 0), // crc64
    Ask("11 before 14, payload cut, crc64 0", WHOLE - 1, Count),
    Ask("14 before 20, crc64 0, address 4", WHOLE, Locate(4)),
    Fresh,
    Set(BLOCK, 4, DDT),
    Set(BLOCK_ENTRY, 4, DDT), // blockType
    Crc(INDEX + 12, 32),
    Ask("10, one table of each kind", WHOLE, Count),
];

// The entry of address 1 is then 0x10000138: 156, 39 and 19 with dataShift 1, 3 and 4, items 0, 0 and 8.
const POINTER_CASES: &[Step] = &[
    Set(TABLE + 18, 2, 5), // negative
    Set(TABLE + 20, 8, 6), // blocks
    Ask("negative 5", WHOLE, Count),
    Ask("negative 5, address -5", WHOLE, Locate(-5)),
    Ask("20, negative 5, address -6", WHOLE, Locate(-6)),
    Ask("20, negative 5, address 0", WHOLE, Locate(0)),
    Fresh,
    Set(TABLE + 38, 1, 0), // alignment
    Ask("22, alignment 0, block 39", WHOLE, Locate(1)),
    Set(ENTRIES + 8, 4, 0x1000_0000 + 2 * BLOCK), // the entry of address 1
    Cmp(TABLE + 66, 20),
    Crc(TABLE + 74, 20),
    Ask("alignment 0, block 156", WHOLE, Locate(1)),
    Set(TABLE + 38, 1, 32), // alignment
    Ask("22, alignment 32, block 156 x 2^32", WHOLE, Locate(1)),
    Set(TABLE + 38, 1, 2), // alignment
    Set(TABLE + 39, 1, 3), // dataShift
    Ask("dataShift 3, block 39 x 4", WHOLE, Locate(1)),
    Set(TABLE + 39, 1, 4), // dataShift
    Ask("22, dataShift 4, block 19 x 4", WHOLE, Locate(1)),
];

pub const SCRIPTS: &[Script] = &[
    Script(SECOND, SECTOR_CASES),
    Script(SECOND, TABLE_CASES),
    Script(SECOND, POINTER_CASES),
];
