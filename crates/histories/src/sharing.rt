// Equal sectors are stored once; the shift follows the largest item; sectors of one disc differ in size.
use super::asks::Question::{Disc, Table};
use super::calls::Call::{Commit, Create, Rollback};
use super::script::Step;
use super::script::Step::{Ask, Crc, Fresh, Make, Set};

// The item with the largest number is overwritten, and the shift falls. "CCCC" is then in the image, but not on the disc.
const FALLING: &[Step] = &[
    Make("5 sectors", Create(5, 64, 4, 5)),
    Make(
        "all of them\nAAAABBBBCCCCDDDDEEEE",
        Commit(229, &[0, 1, 2, 3, 4], 4, 6),
    ),
    Ask("its table", Table(285)),
    Make(
        "addresses 2, 3, 4 as 0 and 1\nAAAABBBBAAAA",
        Commit(426, &[2, 3, 4], 4, 7),
    ),
    Ask("its table", Table(426)),
    Ask("its disc", Disc(567)),
    Make("addresses 1, 3 as 0\nAAAAAAAA", Commit(567, &[1, 3], 4, 8)),
    Ask("its table", Table(567)),
    Make(
        "address 0, overwritten before\nCCCC",
        Commit(708, &[0], 4, 9),
    ),
    Ask("its table", Table(748)),
    Ask("its disc", Disc(905)),
    Make("back to all of them", Rollback(905, 374, 10)),
    Make("address 0 as 4\nEEEE", Commit(905, &[0], 4, 11)),
    Ask("its table", Table(905)),
];

const EQUAL: &[Step] = &[
    Make("5 sectors", Create(5, 64, 4, 5)),
    Make(
        "equal in one commit, addresses 0, 1, 2\nAAAAAAAABBBB",
        Commit(229, &[0, 1, 2], 4, 6),
    ),
    Ask("its table", Table(273)),
    Make(
        "equal to the old disc, address 3\nBBBB",
        Commit(414, &[3], 4, 7),
    ),
    Ask("its table", Table(414)),
    Ask("its disc", Disc(555)),
    Make(
        "overwritten by the same commit, addresses 0, 2\nBBBBAAAA",
        Commit(555, &[0, 2], 4, 8),
    ),
    Ask("its table", Table(555)),
    Make(
        "old, stored and old, addresses 0, 1, 2\nAAAACCCCBBBB",
        Commit(696, &[0, 1, 2], 4, 9),
    ),
    Ask("its table", Table(736)),
    Ask("its disc", Disc(893)),
    Make(
        "stored, stored and the first again, addresses 0, 1, 2\nDDDDEEEEDDDD",
        Commit(893, &[0, 1, 2], 4, 10),
    ),
    Ask("its table", Table(937)),
    Ask("its disc", Disc(1110)),
    // the old disc is searched as it stood: the second commit overwrites both sectors that it looks for, the third "BBBB"
    Fresh(1200),
    Make("P1", Create(3, 64, 4, 5)),
    Make("P2\nAAAABBBB", Commit(213, &[0, 2], 4, 6)),
    Make("the two swapped\nBBBBAAAA", Commit(382, &[0, 2], 4, 7)),
    Ask("its table", Table(382)),
    Make(
        "addresses 0, 1, 2\nCCCCBBBBCCCC",
        Commit(507, &[0, 1, 2], 4, 8),
    ),
    Ask("its table", Table(547)),
    Ask("its disc", Disc(688)),
    // the block holds "AAAA" twice; address 0 points to its item 1, and is found first
    Fresh(1200),
    Make("P1", Create(3, 64, 4, 5)),
    Make("P2\nAAAABBBB", Commit(213, &[0, 2], 4, 6)),
    Set(253, 4, 0x4141_4141), // item 1
    Crc(233, 249, 8),
    Crc(241, 249, 8),
    Set(306, 8, 427), // entry 0
    Set(322, 8, 426), // entry 2
    Crc(290, 306, 24),
    Crc(298, 306, 24),
    Ask("the same bytes twice", Disc(382)),
    Make("address 1\nAAAA", Commit(382, &[1], 4, 7)),
    Ask("its table", Table(382)),
];

const SIZES: &[Step] = &[
    Make("P1", Create(3, 64, 4, 5)),
    Make("size 4, address 0\nAAAA", Commit(213, &[0], 4, 6)),
    Make("size 2, address 1\nAA", Commit(378, &[1], 2, 7)),
    Make("size 8, address 2\nAAAAAAAA", Commit(557, &[2], 8, 8)),
    Ask("its disc", Disc(758)),
    Make("size 2, addresses 0, 2\nAABB", Commit(758, &[0, 2], 2, 9)),
    Ask("its table", Table(796)),
    Ask("its disc", Disc(969)),
    Make("size 1, address 1\nA", Commit(969, &[1], 1, 10)),
    Ask("its table", Table(1006)),
    Ask("its disc", Disc(1195)),
];

pub const SCRIPTS: &[&[Step]] = &[FALLING, EQUAL, SIZES];
