// An image with a table of the second kind (11/13): commits and rollbacks are refused with 74, and an image's older index can be had back.
use super::asks::Question::Disc;
use super::calls::Call::{Commit, Create, Rollback};
use super::script::Step;
use super::script::Step::{Ask, Crc, Make, Set};
use printing::letters::{DDT2, IDX2};

const CASES: &[Step] = &[
    // behind P1 a table at 213, of three entries that are not dumped, with negative 1, and its index at 307
    Make("P1", Create(3, 64, 4, 5)),
    Set(213, 4, DDT2),
    Set(217, 2, 1), // type
    Set(219, 2, 0), // compression
    Set(221, 1, 1), // levels
    Set(231, 2, 1), // negative
    Set(233, 8, 3), // blocks
    Set(241, 2, 0), // overflow
    Set(251, 1, 0), // alignment
    Set(252, 1, 0), // dataShift
    Set(254, 1, 0), // sizeType
    Set(255, 8, 3), // entries
    Set(263, 8, 12), // cmpLength
    Set(271, 8, 12), // length
    Set(295, 8, 0),
    Set(303, 4, 0),
    Crc(279, 295, 12),
    Crc(287, 295, 12),
    Set(307, 4, IDX2),
    Set(311, 8, 1), // entries
    Set(327, 4, DDT2),
    Set(331, 4, 1),
    Set(335, 8, 213),
    Crc(319, 327, 16),
    Set(80, 8, 307), // indexOffset
    Ask("DDT2, disc", Disc(343)),
    Make("commit, 74, no addresses\n", Commit(343, &[], 4, 6)),
    Make(
        "commit, 74 before 20, address 2\nAAAA",
        Commit(343, &[2], 4, 6),
    ),
    Make("rollback, 74, the index of DDT2", Rollback(343, 307, 7)),
    Make("rollback, the index of P1", Rollback(343, 177, 8)),
    Ask("its disc", Disc(343)),
    Make("rollback, 74 at its offset", Rollback(343, 307, 9)),
    Make("commit, address 0\nAAAA", Commit(343, &[0], 4, 10)),
    Ask("its disc", Disc(508)),
    Make("rollback, 74 after a commit", Rollback(508, 307, 11)),
];

pub const SCRIPTS: &[&[Step]] = &[CASES];
