// Commits to images that no call here writes: with entries of other kinds in the index, with a larger shift than the items need,
// with another identifier, with bytes behind the index.
use super::asks::Question::{Bytes, Disc, Table};
use super::calls::Call::{Commit, Create, Rollback};
use super::script::Step;
use super::script::Step::{Ask, Crc, Fresh, Make, Set};
use printing::letters::{CKSM, DDT, DICMFRMT, IDX2, NOTE};

const CASES: &[Step] = &[
    // an index of CKSM, NOTE, the table, CKSM and a 'DDT*' of dataType 2
    Make("P1", Create(3, 64, 4, 5)),
    Set(213, 4, CKSM),
    Set(217, 4, NOTE),
    Set(221, 4, IDX2),
    Set(225, 8, 5), // entries
    Set(241, 4, CKSM),
    Set(245, 4, 0),
    Set(249, 8, 213),
    Set(257, 4, NOTE),
    Set(261, 4, 5),
    Set(265, 8, 217),
    Set(273, 4, DDT),
    Set(277, 4, 1),
    Set(281, 8, 104),
    Set(289, 4, CKSM),
    Set(293, 4, 1),
    Set(297, 8, 213),
    Set(305, 4, DDT),
    Set(309, 4, 2),
    Set(313, 8, 104),
    Crc(233, 241, 80),
    Set(80, 8, 221), // indexOffset
    Ask("with CKSM entries, disc", Disc(321)),
    Make("a sector stored\nAAAA", Commit(321, &[0], 4, 6)),
    Ask("its index", Bytes(434, 84)),
    Ask("its disc", Disc(518)),
    Make("back to the CKSM entries", Rollback(518, 221, 7)),
    Ask("its disc", Disc(518)),
    Make("nothing stored\n", Commit(518, &[], 4, 8)),
    Ask("its index", Bytes(591, 68)),
    Ask("its disc", Disc(659)),
    // shift 32; then another identifier
    Fresh(1200),
    Make("P1", Create(3, 64, 4, 5)),
    Make("P2\nAAAABBBB", Commit(213, &[0, 2], 4, 6)),
    Set(265, 1, 32), // shift
    Set(306, 8, 0xd5_0000_0000), // entry 0
    Set(322, 8, 0xd5_0000_0001), // entry 2
    Crc(290, 306, 24),
    Crc(298, 306, 24),
    Ask("shift 32, disc", Disc(382)),
    Make("address 1\nAAAA", Commit(382, &[1], 4, 7)),
    Ask("its table", Table(382)),
    Set(0, 8, DICMFRMT), // identifier
    Set(73, 1, 7), // image minor
    Make(
        "DICMFRMT, minor version 7, no addresses\n",
        Commit(507, &[], 4, 8),
    ),
    Ask("its header", Bytes(0, 104)),
    // bytes behind the index
    Fresh(1200),
    Make("P1", Create(3, 64, 4, 5)),
    Make(
        "19 bytes behind it, addresses 0, 2\nAAAABBBB",
        Commit(232, &[0, 2], 4, 6),
    ),
    Ask("its table", Table(276)),
    Ask("the 19 bytes", Bytes(213, 19)),
    Ask("its disc", Disc(401)),
];

pub const SCRIPTS: &[&[Step]] = &[CASES];
