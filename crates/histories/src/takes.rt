// Commits and rollbacks, forth and back: after a rollback to an offset that a call returned, every address reads as right after
// that call.
use super::ONES;
use super::asks::Question::Disc;
use super::calls::Call::{Commit, Create, Rollback};
use super::script::Step;
use super::script::Step::{Ask, Fresh, Make};

const HISTORY: &[Step] = &[
    Make("take 0", Create(3, 64, 4, 5)),
    Ask("its disc", Disc(213)),
    Make(
        "take 1, addresses 0, 2\nAAAABBBB",
        Commit(213, &[0, 2], 4, 6),
    ),
    Ask("its disc", Disc(382)),
    Make("take 2, address 1\nCCCC", Commit(382, &[1], 4, 7)),
    Ask("its disc", Disc(563)),
    Make("back to take 1", Rollback(563, 330, 8)),
    Ask("its disc", Disc(563)),
    Make(
        "take 3, addresses 0, 1\nDDDDAAAA",
        Commit(563, &[0, 1], 4, 9),
    ),
    Ask("its disc", Disc(744)),
    Make("back to take 2", Rollback(744, 495, 10)),
    Ask("its disc", Disc(744)),
    Make("take 4, address 2\nCCCC", Commit(744, &[2], 4, 11)),
    Ask("its disc", Disc(885)),
    Make("back to take 0", Rollback(885, 177, 12)),
    Ask("its disc", Disc(885)),
    Make("take 5, no addresses\n", Commit(885, &[], 4, 13)),
    Ask("its disc", Disc(994)),
    Make("take 6, address 0\nDDDD", Commit(994, &[0], 4, 14)),
    Ask("its disc", Disc(1159)),
    Make(
        "no room for take 7, address 1\nEEEE",
        Commit(1159, &[1], 4, 15),
    ),
    Ask("still take 6", Disc(1159)),
    Make("back to take 1", Rollback(1159, 330, 16)),
    Ask("its disc", Disc(1159)),
    Make("on to take 3", Rollback(1159, 676, 17)),
    Ask("its disc", Disc(1159)),
    Make("on to take 4", Rollback(1159, 817, 18)),
    Ask("its disc", Disc(1159)),
    Make("no index at 332", Rollback(1159, 332, 19)),
    Make("no index at 994", Rollback(1159, 994, 19)),
    Make("nor at 2^64 - 1", Rollback(1159, ONES, 19)),
    Ask("still take 4", Disc(1159)),
    Make("back to take 0", Rollback(1159, 177, 20)),
    Ask("its disc", Disc(1159)),
    Make("on to take 2", Rollback(1159, 495, 21)),
    Ask("its disc", Disc(1159)),
    Make("take 2 again", Rollback(1159, 495, 22)),
    Ask("its disc", Disc(1159)),
    Make("on to take 5", Rollback(1159, 958, 23)),
    Ask("its disc", Disc(1159)),
    Make("on to take 6", Rollback(1159, 1107, 0)),
    Ask("its disc", Disc(1159)),
    Ask("a byte short", Disc(1158)),
    // an index is found in any `used` that holds what it needs; a commit at a smaller `used` writes over what followed
    Fresh(1200),
    Make("P1", Create(3, 64, 4, 5)),
    Make("P2\nAAAABBBB", Commit(213, &[0, 2], 4, 6)),
    Make("P3\nAAAA", Commit(382, &[1], 4, 7)),
    Make("no addresses, a full disc\n", Commit(507, &[], 4, 8)),
    Ask("its disc", Disc(632)),
    Make("used 382, to 455", Rollback(382, 455, 9)),
    Make("used 507, to 580", Rollback(507, 580, 9)),
    Make("used 432, to 330", Rollback(432, 330, 9)),
    Ask("its disc", Disc(432)),
    Ask("the same with used 632", Disc(632)),
    Make("used 507, to 455", Rollback(507, 455, 10)),
    Make("commit at 507\nBBBB", Commit(507, &[1], 4, 11)),
    Ask("its disc", Disc(632)),
];

pub const SCRIPTS: &[&[Step]] = &[HISTORY];
