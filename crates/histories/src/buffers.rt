// Full buffers, to the byte, and short ones.
use super::asks::Question::Disc;
use super::calls::Call::{Commit, Create, Rollback};
use super::script::Step;
use super::script::Step::{Ask, Fresh, Make};

const CASES: &[Step] = &[
    // P1, exactly and a byte short
    Fresh(213),
    Make("P1 in 213 bytes", Create(3, 64, 4, 5)),
    Ask("its disc", Disc(213)),
    Fresh(212),
    Make("P1 in 212 bytes", Create(3, 64, 4, 5)),
    Ask("no disc", Disc(213)),
    // P2
    Fresh(382),
    Make("P1 in 382 bytes", Create(3, 64, 4, 5)),
    Make("P2 in 382 bytes\nAAAABBBB", Commit(213, &[0, 2], 4, 6)),
    Ask("the index is past 213", Disc(213)),
    Ask("its disc", Disc(382)),
    Fresh(381),
    Make("P1 in 381 bytes", Create(3, 64, 4, 5)),
    Make("P2 in 381 bytes\nAAAABBBB", Commit(213, &[0, 2], 4, 6)),
    Ask("still P1", Disc(213)),
    Ask("still P1, used 382", Disc(382)),
    // P3, which stores nothing
    Fresh(507),
    Make("P1 in 507 bytes", Create(3, 64, 4, 5)),
    Make("P2 in 507 bytes\nAAAABBBB", Commit(213, &[0, 2], 4, 6)),
    Make("P3 in 507 bytes\nAAAA", Commit(382, &[1], 4, 7)),
    Ask("the index is past 382", Disc(382)),
    Fresh(506),
    Make("P1 in 506 bytes", Create(3, 64, 4, 5)),
    Make("P2 in 506 bytes\nAAAABBBB", Commit(213, &[0, 2], 4, 6)),
    Make("P3 in 506 bytes\nAAAA", Commit(382, &[1], 4, 7)),
    Ask("still P2", Disc(382)),
    // too short for any image
    Fresh(50),
    Make("50 bytes, create", Create(1, 64, 4, 5)),
    Make(
        "50 bytes, commit, 32 before 1, used 60\nAAAA",
        Commit(60, &[0], 4, 6),
    ),
    Make("50 bytes, commit, used 50\nAAAA", Commit(50, &[0], 4, 6)),
    Make("50 bytes, commit, used 0\n", Commit(0, &[], 4, 6)),
    Make(
        "50 bytes, rollback, 32 before 1, used 60",
        Rollback(60, 177, 6),
    ),
    Make("50 bytes, rollback, used 50", Rollback(50, 177, 6)),
    Fresh(0),
    Make("no bytes, create", Create(1, 64, 4, 5)),
    Make("no bytes, commit, used 60\nAAAA", Commit(60, &[0], 4, 6)),
    Make("no bytes, commit, used 50\nAAAA", Commit(50, &[0], 4, 6)),
    Make("no bytes, commit, used 0\n", Commit(0, &[], 4, 6)),
    Make("no bytes, rollback, used 60", Rollback(60, 177, 6)),
    Make("no bytes, rollback, used 50", Rollback(50, 177, 6)),
];

pub const SCRIPTS: &[&[Step]] = &[CASES];
