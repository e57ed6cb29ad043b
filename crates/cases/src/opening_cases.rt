// Opening: for every two neighbours in document 01's order of checks an image to which both apply, and the number and place that it gives;
// beside them what one check finds alone. Each script bends the disc TABLE_LAST.
use super::ONES;
use super::disc::TABLE_LAST;
use super::script::Question::{Count, Locate};
use super::script::Step::{Ask, Crc, Fresh, Set};
use super::script::{Script, Step};
use printing::letters::{AARUFRMT, AARUFRMX, DBLX, DDT, DDT2, DICMFRMT, IDX2, INDX};

// Where its records are, and how many bytes it has.
const INDEX: u64 = 104;

const TABLE_ENTRY: u64 = 124;

const BLOCK_ENTRY: u64 = 140;

const BLOCK: u64 = 156;

const TABLE: u64 = 200;

const WHOLE: u64 = 273;

const ACCEPTED_CASES: &[Step] = &[
    Ask("index, block, table, in that order", WHOLE, Count),
    Set(73, 1, 7), // image minor
    Ask("minor version 7", WHOLE, Count),
    Set(0, 8, DICMFRMT), // identifier
    Ask("identifier DICMFRMT", WHOLE, Count),
    Set(TABLE + 8, 1, 32), // shift
    Ask("shift 32", WHOLE, Count),
];

const HEADER_CASES: &[Step] = &[
    Ask("1, no bytes", 0, Count),
    Set(0, 8, AARUFRMX), // identifier
    Ask("1 before 2, 103 bytes of AARUFRMX", 103, Count),
    Ask("2, 104 bytes of AARUFRMX", 104, Count),
    Set(72, 1, 3), // image major
    Ask("2 before 3, AARUFRMX, major version 3", WHOLE, Count),
    Set(0, 8, AARUFRMT), // identifier
    Set(80, 8, 103), // indexOffset
    Ask("3 before 4, indexOffset 103", WHOLE, Count),
    Set(72, 1, 2), // image major
    Ask("4 before 5, indexOffset 103", WHOLE, Count),
    Set(80, 8, 254), // indexOffset
    Ask("4 before 5, index header past the end", WHOLE, Count),
    Set(80, 8, ONES), // indexOffset
    Ask("4, indexOffset 2^64 - 1, wraps to 19", WHOLE, Count),
    Set(80, 8, 0x1_0000_0068), // indexOffset
    Ask("4, indexOffset 2^32 + 104", WHOLE, Count),
];

const INDEX_CASES: &[Step] = &[
    Set(INDEX, 4, INDX), // identifier
    Set(INDEX + 4, 8, 10), // entries
    Ask("5 before 4, INDX, entries past the end", WHOLE, Count),
    Set(INDEX, 4, IDX2), // identifier
    Ask("4 before 6, entries past the end", WHOLE, Count),
    Set(INDEX + 4, 8, 0x1000_0000_0000_0002), // entries
    Ask("4, 2^60 + 2 entries, wrap to 2", WHOLE, Count),
    Fresh,
    Set(BLOCK_ENTRY + 8, 8, 103), // offset
    Ask("6 before 7, block's offset 103", WHOLE, Count),
];

const ENTRY_CASES: &[Step] = &[
    Set(BLOCK_ENTRY + 8, 8, 103), // offset
    Crc(INDEX + 12, 32),
    Ask("7 before 8, block's offset 103", WHOLE, Count),
    Set(TABLE, 4, DDT2), // identifier
    Ask("8 before 7 of the next entry", WHOLE, Count),
    Fresh,
    Set(BLOCK_ENTRY + 8, 8, 270), // offset
    Crc(INDEX + 12, 32),
    Ask("7 before 8, offset + 4 past the end", WHOLE, Count),
    Fresh,
    Set(TABLE_ENTRY + 8, 8, ONES), // offset
    Crc(INDEX + 12, 32),
    Ask("7, table's offset 2^64 - 1, wraps to 3", WHOLE, Count),
    Set(TABLE_ENTRY + 8, 8, 0x1_0000_00c8), // offset
    Crc(INDEX + 12, 32),
    Ask("7, table's offset 2^32 + 200", WHOLE, Count),
];

// 9 excludes 10, and 11 too, as with no table there is no header. So both 9 and 10 follow 8, and 11 follows 10.
const TABLE_ENTRY_CASES: &[Step] = &[
    Set(TABLE_ENTRY + 4, 4, 2), // dataType
    Crc(INDEX + 12, 32),
    Ask("9, table's dataType 2", WHOLE, Count),
    Set(BLOCK, 4, DBLX), // identifier
    Ask("8 before 9, no DBLK there", WHOLE, Count),
    Set(INDEX + 4, 8, 0), // entries
    Crc(INDEX + 12, 0),
    Ask("9, no entries", WHOLE, Count),
    Fresh,
    Set(BLOCK_ENTRY, 4, DDT), // blockType
    Crc(INDEX + 12, 32),
    Ask("8 before 10, block named as table", WHOLE, Count),
    Set(BLOCK_ENTRY + 8, 8, TABLE), // offset
    Crc(INDEX + 12, 32),
    Ask("10, table named twice", WHOLE, Count),
    Ask("10 before 11, header past the end", TABLE + 48, Count),
];

// From case to case the next fault is added, then the earlier one mended.
const TABLE_CASES: &[Step] = &[
    Set(TABLE + 6, 2, 1), // compression
    Ask("11 before 13, header past the end", TABLE + 48, Count),
    Set(TABLE + 8, 1, 33), // shift
    Ask("13 before 12, compression 1, shift 33", WHOLE, Count),
    Set(TABLE + 6, 2, 0), // compression
    Ask("12 before 11, shift 33, payload cut", WHOLE - 1, Count),
    Set(TABLE + 8, 1, 1), // shift
    Set(TABLE + 41, 8, 0), // crc64
    Ask("11 before 14, payload cut, crc64 0", WHOLE - 1, Count),
    Ask("14 before 20, crc64 0, address 3", WHOLE, Locate(3)),
    Fresh,
    Set(TABLE + 33, 8, 0), // cmpCrc64
    Ask("14, cmpCrc64 0", WHOLE, Count),
];

const TABLE_LENGTH_CASES: &[Step] = &[
    Set(TABLE + 4, 2, 2), // type
    Ask("12, type 2", WHOLE, Count),
    Fresh,
    Set(TABLE + 17, 8, 16), // cmpLength
    Ask("12, cmpLength 16", WHOLE, Count),
    Set(TABLE + 9, 8, 0x2000_0000_0000_0003), // entries
    Set(TABLE + 17, 8, 24), // cmpLength
    Set(TABLE + 25, 8, 24), // length
    Ask("12, 2^61 + 3 entries, wrap to 3", WHOLE, Count),
    Set(TABLE + 9, 8, 0x1fff_ffff_ffff_ffff), // entries
    Set(TABLE + 17, 8, 0xffff_ffff_ffff_fff8), // cmpLength
    Set(TABLE + 25, 8, 0xffff_ffff_ffff_fff8), // length
    Ask("11, length 2^64 - 8, wraps to 241", WHOLE, Count),
    Set(TABLE + 9, 8, 0x1fff_ffff), // entries
    Set(TABLE + 17, 8, 0xffff_fff8), // cmpLength
    Set(TABLE + 25, 8, 0xffff_fff8), // length
    Ask("11, length 2^32 - 8", WHOLE, Count),
];

pub const SCRIPTS: &[Script] = &[
    Script(TABLE_LAST, ACCEPTED_CASES),
    Script(TABLE_LAST, HEADER_CASES),
    Script(TABLE_LAST, INDEX_CASES),
    Script(TABLE_LAST, ENTRY_CASES),
    Script(TABLE_LAST, TABLE_ENTRY_CASES),
    Script(TABLE_LAST, TABLE_CASES),
    Script(TABLE_LAST, TABLE_LENGTH_CASES),
];
