// The worked disc of document 01, made by the calls: P1 to P8.
use super::asks::Question::{Bytes, Disc, Table};
use super::calls::Call::{Commit, Create, Rollback};
use super::script::Step;
use super::script::Step::{Ask, Fresh, Make};

const WORKED: &[Step] = &[
    Make("P1", Create(3, 64, 4, 5)),
    Ask("P1, header", Bytes(0, 104)),
    Ask("P1, table and index", Bytes(104, 109)),
    Ask("P1, table", Table(104)),
    Ask("P1, disc", Disc(213)),
    Make("addresses 1, 1\nAAAABBBB", Commit(213, &[1, 1], 4, 6)),
    Make("addresses 2, 1\nAAAABBBB", Commit(213, &[2, 1], 4, 6)),
    Make("address 3\nAAAA", Commit(213, &[3], 4, 6)),
    Make("P2, addresses 0, 2\nAAAABBBB", Commit(213, &[0, 2], 4, 6)),
    Ask("P2, header", Bytes(0, 104)),
    Ask("P2, block, table and index", Bytes(213, 169)),
    Ask("P2, table", Table(257)),
    Ask("P2, disc", Disc(382)),
    Make("P3, address 1\nAAAA", Commit(382, &[1], 4, 7)),
    Ask("P3, header", Bytes(0, 104)),
    Ask("P3, table and index", Bytes(382, 125)),
    Ask("P3, table", Table(382)),
    Ask("P3, disc", Disc(507)),
    Make("P4, back to 330", Rollback(507, 330, 8)),
    Ask("P4, header", Bytes(0, 104)),
    Ask("P4, disc", Disc(507)),
    Make("P5, back to 455", Rollback(507, 455, 9)),
    Ask("P5, disc", Disc(507)),
    Make("P4 again", Rollback(507, 330, 10)),
    Make("P6, address 1\nBBBB", Commit(507, &[1], 4, 11)),
    Ask("P6, table", Table(507)),
    Ask("P6, disc", Disc(632)),
    Make("P5 after P6, back to 455", Rollback(632, 455, 12)),
    Ask("P5 after P6, disc", Disc(632)),
    // an empty commit after P1
    Fresh(1200),
    Make("P1", Create(3, 64, 4, 5)),
    Make("P7, no addresses\n", Commit(213, &[], 4, 6)),
    Ask("P7, table and index", Bytes(213, 109)),
    Ask("P7, disc", Disc(322)),
];

// "Largest item 0, 1, 2, 3, 4: shift 0, 1, 2, 2, 3."
const P8: &[Step] = &[
    Make("5 sectors", Create(5, 64, 4, 5)),
    Make("P8, largest item 0\nA", Commit(229, &[0], 1, 6)),
    Ask("P8, its table", Table(266)),
    Make("5 sectors", Create(5, 64, 4, 5)),
    Make("P8, largest item 1\nAB", Commit(229, &[0, 1], 1, 6)),
    Ask("P8, its table", Table(267)),
    Make("5 sectors", Create(5, 64, 4, 5)),
    Make("P8, largest item 2\nABC", Commit(229, &[0, 1, 2], 1, 6)),
    Ask("P8, its table", Table(268)),
    Make("5 sectors", Create(5, 64, 4, 5)),
    Make("P8, largest item 3\nABCD", Commit(229, &[0, 1, 2, 3], 1, 6)),
    Ask("P8, its table", Table(269)),
    Make("5 sectors", Create(5, 64, 4, 5)),
    Make(
        "P8, largest item 4\nABCDE",
        Commit(229, &[0, 1, 2, 3, 4], 1, 6),
    ),
    Ask("P8, its table", Table(270)),
];

pub const SCRIPTS: &[&[Step]] = &[WORKED, P8];
