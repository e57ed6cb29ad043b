// For every two neighbours in the order of a call's checks an input to which both apply, and the number that it gives; beside them
// what one check finds alone. In a buffer of 382 bytes P2 leaves no room, so that 35 always applies to a commit.
use super::ONES;
use super::asks::Question::Disc;
use super::calls::Call::{Commit, Create, Many, Rollback};
use super::script::Step;
use super::script::Step::{Ask, Crc, Fresh, Make, Set};
use printing::letters::{AARUFRMT, AARUFRMX, DBLK};

// Where the records of P2 are.
const BLOCK: u64 = 213;

const TABLE: u64 = 257;

const INDEX: u64 = 330;

const ARGUMENT_CASES: &[Step] = &[
    // creating
    Fresh(382),
    Make(
        "create, 30 before 33, 0 sectors, 63 application bytes",
        Create(0, 63, 4, 5),
    ),
    Make(
        "create, 30 before 33, 1,048,577 sectors, 65 application bytes",
        Create(1048577, 65, 4, 5),
    ),
    Make(
        "create, 30 before 35, 1,048,577 sectors",
        Create(1048577, 64, 4, 5),
    ),
    Make("create, 30, 2^64 - 1 sectors", Create(ONES, 64, 4, 5)),
    Make(
        "create, 33 before 35, 63 application bytes",
        Create(1048576, 63, 4, 5),
    ),
    Make(
        "create, 33 before 35, 0 application bytes",
        Create(1048576, 0, 4, 5),
    ),
    Make("create, 33, 32 application bytes", Create(24, 32, 4, 5)),
    Make("create, 35, 1,048,576 sectors", Create(1048576, 64, 4, 5)),
    Make("create, 35, 389 bytes", Create(25, 64, 4, 5)),
    Make("create, 381 bytes", Create(24, 64, 4, 5)),
    // committing
    Fresh(382),
    Make("P1", Create(3, 64, 4, 5)),
    Make("P2\nAAAABBBB", Commit(213, &[0, 2], 4, 6)),
    Make(
        "commit, 32 before 30, used 383, size 0\nAAAA",
        Commit(383, &[0], 0, 7),
    ),
    Make(
        "commit, 32 before 30, used 2^64 - 1, size 0\nAAAA",
        Commit(ONES, &[0], 0, 7),
    ),
    Make("commit, 30 before 33, size 0\nA", Commit(382, &[0], 0, 7)),
    Make(
        "commit, 30 before 33, size 65,537\nA",
        Commit(382, &[0], 65537, 7),
    ),
    Make("commit, 30, size 0, no addresses\n", Commit(382, &[], 0, 7)),
    Make(
        "commit, 30, size 65,537, no addresses\n",
        Commit(382, &[], 65537, 7),
    ),
    Make(
        "commit, 30 before 33, 65,537 addresses\nA",
        Many(382, 65537, 1, 7),
    ),
    Make(
        "commit, 33 before 34, 65,536 addresses\nA",
        Many(382, 65536, 1, 7),
    ),
    Make(
        "commit, 33, 2^16 addresses x 2^16 bytes, wraps to 0\n",
        Many(382, 65536, 65536, 7),
    ),
    Make("commit, 33, size 65,536\nA", Commit(382, &[0], 65536, 7)),
    Make(
        "commit, 33 before 34, addresses 1, 1\nAAAA",
        Commit(382, &[1, 1], 4, 7),
    ),
    Make(
        "commit, 33, two sectors for one address\nAAAABBBB",
        Commit(382, &[0], 4, 7),
    ),
    Make(
        "commit, 33, a byte for no address\nA",
        Commit(382, &[], 4, 7),
    ),
    Make(
        "commit, 34 before 1, addresses 1, 1, used 103\nAAAABBBB",
        Commit(103, &[1, 1], 4, 7),
    ),
    Make(
        "commit, 34 before 20, addresses 3, 3\nAAAABBBB",
        Commit(382, &[3, 3], 4, 7),
    ),
    Make(
        "commit, 34, addresses 0, 2, 1\nAAAABBBBCCCC",
        Commit(382, &[0, 2, 1], 4, 7),
    ),
    Make(
        "commit, 1 before 20, used 103\nAAAA",
        Commit(103, &[3], 4, 7),
    ),
    Make(
        "commit, 4 before 20, used 381\nAAAA",
        Commit(381, &[3], 4, 7),
    ),
];

// The sectors of the disc are checked whether or not the commit names them.
const SECTOR_CASES: &[Step] = &[
    Fresh(382),
    Make("P1", Create(3, 64, 4, 5)),
    Make("P2\nAAAABBBB", Commit(213, &[0, 2], 4, 6)),
    Set(TABLE + 41, 8, 0), // crc64
    Make(
        "commit, 14 before 20, address 3\nAAAA",
        Commit(382, &[3], 4, 7),
    ),
    Crc(TABLE + 41, TABLE + 49, 24),
    Set(BLOCK + 28, 8, 0), // crc64
    Make(
        "commit, 20 before 27, address 3\nAAAA",
        Commit(382, &[3], 4, 7),
    ),
    Make(
        "commit, 20 before 27, addresses 0, 3\nAAAABBBB",
        Commit(382, &[0, 3], 4, 7),
    ),
    Make(
        "commit, 20 before 27, address -1\nAAAA",
        Commit(382, &[-1], 4, 7),
    ),
    Make(
        "commit, 27 before 35, address 1\nCCCC",
        Commit(382, &[1], 4, 7),
    ),
    Make(
        "commit, 27 before 35, the refused sectors themselves\nCCCCDDDD",
        Commit(382, &[0, 2], 4, 7),
    ),
    Make(
        "commit, 27 before 35, no addresses\n",
        Commit(382, &[], 4, 7),
    ),
    Crc(BLOCK + 28, BLOCK + 36, 8),
    Make("commit, 35\nCCCC", Commit(382, &[1], 4, 7)),
    Set(TABLE + 8, 1, 2), // shift
    Set(TABLE + 49, 8, 4 * BLOCK + 2), // entry 0
    Set(TABLE + 65, 8, 4 * 177), // entry 2
    Crc(TABLE + 33, TABLE + 49, 24),
    Crc(TABLE + 41, TABLE + 49, 24),
    Ask("address 0 is 26, address 2 is 22", Disc(382)),
    Make(
        "commit, 26 of the lower address\nCCCCDDDD",
        Commit(382, &[0, 2], 4, 7),
    ),
    Set(TABLE + 49, 8, 4 * 177), // entry 0
    Set(TABLE + 65, 8, 4 * BLOCK + 2), // entry 2
    Crc(TABLE + 33, TABLE + 49, 24),
    Crc(TABLE + 41, TABLE + 49, 24),
    Make(
        "commit, 22 of the lower address\nCCCCDDDD",
        Commit(382, &[0, 2], 4, 7),
    ),
    Set(TABLE + 49, 8, 0), // entry 0
    Crc(TABLE + 33, TABLE + 49, 24),
    Crc(TABLE + 41, TABLE + 49, 24),
    Ask("addresses 0 and 1 are 21, address 2 is 26", Disc(382)),
    Make("commit, 21 is passed over\nCCCC", Commit(382, &[1], 4, 7)),
];

// It is the handed-in offset that is checked, and not the header's; and no sector is.
const ROLLBACK_CASES: &[Step] = &[
    Fresh(382),
    Make("P1", Create(3, 64, 4, 5)),
    Make("P2\nAAAABBBB", Commit(213, &[0, 2], 4, 6)),
    Make(
        "rollback, 32 before 4, used 383, offset 103",
        Rollback(383, 103, 7),
    ),
    Make("rollback, 4, offset 103", Rollback(382, 103, 7)),
    Make(
        "rollback, 4, index header past the end",
        Rollback(382, 363, 7),
    ),
    Make(
        "rollback, 4, offset 2^64 - 1, wraps to 19",
        Rollback(382, ONES, 7),
    ),
    Make(
        "rollback, 4, offset 2^32 + 330",
        Rollback(382, 0x1_0000_014a, 7),
    ),
    Make("rollback, 4, entries past the end", Rollback(381, INDEX, 7)),
    Make("rollback, 5, offset 331", Rollback(382, 331, 7)),
    Make("rollback, 5, a table there", Rollback(382, 104, 7)),
    Set(0, 8, AARUFRMX), // identifier
    Make(
        "rollback, 1 before 2, 103 bytes of AARUFRMX",
        Rollback(103, 103, 7),
    ),
    Set(72, 1, 3), // image major
    Make(
        "rollback, 2 before 3, AARUFRMX, major version 3",
        Rollback(382, INDEX, 7),
    ),
    Set(72, 1, 2), // image major
    Make(
        "rollback, 2 before 4, AARUFRMX, offset 103",
        Rollback(382, 103, 7),
    ),
    Set(0, 8, AARUFRMT), // identifier
    Set(72, 1, 3), // image major
    Make(
        "rollback, 3 before 4, major version 3, offset 103",
        Rollback(382, 103, 7),
    ),
    Set(72, 1, 2), // image major
    Make("rollback to 177", Rollback(382, 177, 7)),
    Ask("its disc", Disc(382)),
    Set(INDEX + 12, 8, 0), // crc64
    Make("rollback, 6, crc64 0", Rollback(382, INDEX, 8)),
    Crc(INDEX + 12, INDEX + 20, 32),
    Set(BLOCK, 1, b'X' as u64), // XBLK
    Make("rollback, 8, no DBLK there", Rollback(382, INDEX, 8)),
    Set(BLOCK, 4, DBLK), // identifier
    Set(TABLE + 41, 8, 0), // crc64
    Make("rollback, 14, crc64 0", Rollback(382, INDEX, 8)),
    Crc(TABLE + 41, TABLE + 49, 24),
    Set(BLOCK + 28, 8, 0), // crc64
    Make("rollback, a sector's crc64 0", Rollback(382, INDEX, 8)),
    Ask("its disc", Disc(382)),
    Set(80, 8, 103), // indexOffset
    Ask("indexOffset 103", Disc(382)),
    Make("rollback, time 2^64 - 1", Rollback(382, 177, ONES)),
    Ask("its disc", Disc(382)),
];

pub const SCRIPTS: &[&[Step]] = &[ARGUMENT_CASES, SECTOR_CASES, ROLLBACK_CASES];
