// Internal: a table of either kind: checks 11 to 14 of document 01, 70 to 72 of 11/13, and what an entry of it means. What both kinds share is done once,
// by the kind's layout.
//
// Cost: one pass over the table's entries, for their checksum.
#![tactic(auto)]

ghost use Rattle.std.specs.Prelude.{◌≡◌, ◌+◌, ◌*◌, ◌/◌, ◌^◌, ◌≤◌, ◌<◌, length};
ghost use Rattle.crc64.specs.Crc.{crc_of};
ghost use Rattle.format.specs.declared.TableKind.TheVariants.{Second};
ghost use Rattle.format.specs.Tests.{same};
ghost use Rattle.format.specs.Layouts.{table_header_length_of, table_alignment, table_negative, decode};
ghost use Rattle.format.specs.Opening.{kind_at, extent_verdict, table_malformed, sums_differ, payload_verdict, table_verdict};
ghost use Rattle.format.specs.Writing.{is_second};
ghost use Rattle.tables.specs.Places.{IsLayout};

use crc64::checksum;
use fields::{get, get_short, part, room, spells};
use format::{
    ByteOffset, Check, ItemNumber, Pointer, Refusal, SECOND_ENTRY, SECOND_HEADER, TABLE_ENTRY,
    TABLE_HEADER, TableKind,
};

// Either of two stored checksums is not that of the payload. One pass over the payload.
#[tactic(auto, using(format::proofs::Tests::either_test), unfolding(format::specs::Opening::sums_differ))]
pub fn sums_differ(payload: &[u8], stored1: u64, stored2: u64) -> bool
    ensures { result ≡ sums_differ (crc_of payload.now) stored1 stored2 }
{
    let sum = checksum(payload);
    sum != stored1 || sum != stored2
}

// How many bytes the header of a kind of table and its entries have, and where in the header stand the shift and, 8 bytes each, `entries`, cmpLength,
// length, cmpCrc64 and crc64.
#[derive(Clone, Copy)]
pub struct Layout {
    pub header: u64,
    pub entries: u64,
    pub shift: u64,
    pub width: u64,
}

pub fn layout_of(kind: TableKind) -> Layout
    ensures { IsLayout kind result }
{
    match kind {
        TableKind::First => Layout {
            header: TABLE_HEADER,
            entries: 9,
            shift: 8,
            width: TABLE_ENTRY,
        },
        TableKind::Second => Layout {
            header: SECOND_HEADER,
            entries: 42,
            shift: 39,
            width: SECOND_ENTRY,
        },
    }
}

// The kind of the table at t, by its identifier.
pub fn kind_at(s: &[u8], t: ByteOffset) -> TableKind
    requires { t.0 + 4 ≤ length s.now }
    ensures { result ≡ kind_at s.now t.0 }
{
    if spells(s, t.0, b"DDT2") {
        return TableKind::Second;
    }
    TableKind::First
}

// The alignment of the table at t.
pub fn alignment_at(s: &[u8], kind: TableKind, t: ByteOffset) -> u64
    requires { t.0 + table_header_length_of kind ≤ length s.now }
    ensures { result ≡ table_alignment s.now kind t.0 }
{
    match kind {
        TableKind::First => 0,
        TableKind::Second => get(s, t.0 + 38, 1),
    }
}

// How many of its entries are for addresses below 0.
pub fn negative_at(s: &[u8], kind: TableKind, t: ByteOffset) -> u16
    requires { t.0 + table_header_length_of kind ≤ length s.now }
    ensures { result ≡ table_negative s.now kind t.0 }
{
    match kind {
        TableKind::First => 0,
        TableKind::Second => get_short(s, t.0 + 18),
    }
}

// The table of the second kind at t: checks 70 to 72.
fn second_verdict(s: &[u8], t: ByteOffset) -> Result<(), Refusal>
    requires { t.0 + 82 ≤ length s.now }
    ensures { result ≡ extent_verdict s.now Second t.0 }
{
    let table = t.0;
    if get(s, table + 8, 1) != 1 {
        return Err(Refusal::of(Check::SeveralLevels));
    }
    if get(s, table + 41, 1) != 0 {
        return Err(Refusal::of(Check::UnknownSizeType));
    }
    let blocks = get(s, table + 20, 8);
    let negative = get(s, table + 18, 2);
    if blocks < negative {
        return Err(Refusal::of(Check::AddressesExceedBlocks));
    }
    if blocks - negative < get(s, table + 28, 2) {
        return Err(Refusal::of(Check::AddressesExceedBlocks));
    }
    Ok(())
}

// The table at t, of either kind: checks 70 to 72.
fn extent_verdict(s: &[u8], kind: TableKind, t: ByteOffset) -> Result<(), Refusal>
    requires { t.0 + table_header_length_of kind ≤ length s.now }
    ensures { result ≡ extent_verdict s.now kind t.0 }
{
    match kind {
        TableKind::First => Ok(()),
        TableKind::Second => second_verdict(s, t),
    }
}

// length is width x count, which does not wrap.
#[tactic(auto, using(format::proofs::Tests::either_test))]
fn is_whole(length: u64, width: u64, count: u64) -> bool
    ensures { result ≡ same length (width * count) }
{
    width.checked_mul(count) == Some(length)
}

// The table at t: check 12.
#[tactic(auto, using(format::proofs::Tests::either_test), unfolding(format::specs::Opening::table_malformed))]
fn table_malformed(s: &[u8], kind: TableKind, t: ByteOffset) -> bool
    requires { t.0 + table_header_length_of kind ≤ length s.now }
    ensures { result ≡ table_malformed s.now kind t.0 }
{
    let l = layout_of(kind);
    let table = t.0;
    let length = get(s, table + (l.entries + 16), 8);
    get(s, table + 4, 2) != 1
        || 32 < get(s, table + l.shift, 1)
        || 32 < alignment_at(s, kind, t)
        || !is_whole(length, l.width, get(s, table + l.entries, 8))
        || get(s, table + (l.entries + 8), 8) != length
}

// The payload of the table at t, whose header passed: checks 11 and 14. One pass over its entries for the checksum.
fn payload_verdict(s: &[u8], kind: TableKind, t: ByteOffset) -> Result<(), Refusal>
    requires { t.0 + table_header_length_of kind ≤ length s.now }
    ensures { result ≡ payload_verdict s.now kind t.0 }
{
    let l = layout_of(kind);
    let table = t.0;
    let length = get(s, table + (l.entries + 16), 8);
    if room(s, table + l.header) < length {
        return Err(Refusal::at(Check::TableOutside, t));
    }
    if sums_differ(
        part(s, table + l.header, length),
        get(s, table + (l.entries + 24), 8),
        get(s, table + (l.entries + 32), 8),
    ) {
        return Err(Refusal::at(Check::TableChecksum, t));
    }
    Ok(())
}

// The table at t: checks 11 to 14, 70 to 72.
pub fn table_verdict(s: &[u8], kind: TableKind, t: ByteOffset) -> Result<(), Refusal>
    ensures { result ≡ table_verdict s.now kind t.0 }
{
    let l = layout_of(kind);
    let table = t.0;
    if room(s, table) < l.header {
        return Err(Refusal::at(Check::TableOutside, t));
    }
    if get(s, table + 6, 2) != 0 {
        return Err(Refusal::at(Check::TableCompressed, t));
    }
    extent_verdict(s, kind, t)?;
    if table_malformed(s, kind, t) {
        return Err(Refusal::at(Check::TableMalformed, t));
    }
    payload_verdict(s, kind, t)
}

// The table is of the second kind.
#[tactic(auto, unfolding(format::specs::Writing::is_second))]
pub fn is_second(kind: TableKind) -> bool
    ensures { result ≡ is_second kind }
{
    kind == TableKind::Second
}

// What a pointer means. 11/13: "Byte offset = pointer / 2^dataShift, whole part, times 2^blockAlignmentShift; item number = the remainder."
pub fn decode(shift: u64, alignment: u64, pointer: u64) -> Pointer
    requires { (shift ≤ 32) × (alignment ≤ 32) × (pointer / 2 ^ shift * 2 ^ alignment < 2 ^ 64) }
    ensures { result ≡ decode shift alignment pointer }
{
    let unit = 1u64 << shift;
    let step = 1u64 << alignment;
    Pointer {
        block: ByteOffset(pointer / unit * step),
        item: ItemNumber(pointer % unit),
    }
}
