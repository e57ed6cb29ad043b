// Internal: opening an image, checks 1 to 14 of document 01 and 70 to 72 of 11/13 (1 to 10 by `index`, the table's by `tables`), and 74; the opened image, of
// which none is made otherwise; the entries of its table, and which of them an address has.
//
// Cost: the index is passed over twice, for its checksum and for its entries, and the table once, for its checksum.
#![tactic(auto)]

ghost use Rattle.std.specs.Prelude.{◌≡◌, ◌+◌, ◌^◌, ◌≤◌, ◌<◌, length, pos, neg_ℤ, ◌+ℤ◌, IfOk};
ghost use Rattle.format.specs.Refusals.{refusal, row, answer};
ghost use Rattle.format.specs.Layouts.{entry_pointer, decode};
ghost use Rattle.format.specs.Opening.{header_verdict, kind_at, table_verdict, open_verdict, opened_at, opened, opening, range_of};
ghost use Rattle.format.specs.Reading.{outside, table_entry_at, table_entry, unwritten, unknown, pointer_at};
ghost use Rattle.format.specs.Writing.{is_second, writable_verdict};
ghost use Rattle.opening.specs.Answers.{contents, outcome, Decodes, IsNumbered};
ghost use Rattle.opening.specs.Images.{outcome_of};

use fields::{get, magnitude};
use format::{
    AddressRange, ByteOffset, Check, EntryNumber, INDEX_OFFSET, Pointer, Refusal, SECOND_ENTRY,
    SECOND_HEADER, SectorAddress, TABLE_ENTRY, TABLE_HEADER, TableKind,
};
use index::Index;
use tables::layout_of;

// What opening finds of the table: its kind, place (that of the header), count and shift, alignment and negative, which are 0 for 'DDT*'. The fields are
// private, so that opening alone makes one.
#[derive(Clone, Copy)]
pub struct Opened {
    kind: TableKind,
    table: ByteOffset,
    count: u64,
    shift: u64,
    alignment: u64,
    negative: u16,
}

mod image; // the opened image: the lent bytes with what opening found in them

pub use image::Image;

// The image whose table is at t, if the table passes.
fn open_table(s: &[u8], t: ByteOffset) -> Result<Opened, Refusal>
    requires { t.0 + 4 ≤ length s.now }
    ensures { outcome result ≡ answer (table_verdict s.now (kind_at s.now t.0) t.0) (opened_at s.now t.0) }
{
    let kind = tables::kind_at(s, t);
    tables::table_verdict(s, kind, t)?;
    let l = layout_of(kind);
    let count = get(s, t.0 + l.entries, 8);
    let shift = get(s, t.0 + l.shift, 1);
    let alignment = tables::alignment_at(s, kind, t);
    let negative = tables::negative_at(s, kind, t);
    Ok(Opened {
        kind,
        table: t,
        count,
        shift,
        alignment,
        negative,
    })
}

// An image whose header passes, with o for its index's offset: checks 4 to 14.
fn open_index(s: &[u8], o: ByteOffset) -> Result<Opened, Refusal>
    requires { header_verdict s.now ≡ Ok tt }
    ensures { outcome result ≡ answer (open_verdict s.now o.0) (opened s.now o.0) }
{
    index::index_verdict(s, o)?;
    let t = index::one_table(Index { bytes: s, at: o })?;
    open_table(s, t)
}

// Opening an image.
pub fn open<'a>(s: &'a [u8]) -> Result<Image<'a>, Refusal>
    ensures opens { outcome_of result ≡ opening s.now }
    ensures bytes { IfOk result (λ image. image.bytes ≡ s.entry) }
{
    index::header_verdict(s)?;
    let found = open_index(s, ByteOffset(get(s, INDEX_OFFSET, 8)))?;
    Ok(Image { bytes: s, found })
}

// All of opening's checks, with o for the index's offset, and 74.
pub fn writable_verdict(s: &[u8], o: ByteOffset) -> Result<(), Refusal>
    ensures { result ≡ writable_verdict s.now o.0 }
{
    index::header_verdict(s)?;
    match open_index(s, o) {
        Ok(t) => t.kind_verdict(),
        // the refusal's arm is written out, not left to `?`, so that an edit of it is refused at a fact
        Err(r) => Err(r),
    }
}

impl Opened {
    // The image that opened as t may be written to: check 74.
    pub fn kind_verdict(self) -> Result<(), Refusal>
        ensures { result ≡ row (is_second (contents self).kind) (refusal 74 0) }
    {
        if tables::is_second(self.kind) {
            return Err(Refusal::of(Check::SecondKind));
        }
        Ok(())
    }

    // How many sectors the image that opened as t has.
    pub fn count(self) -> u64
        ensures { result ≡ (contents self).count }
    {
        self.count
    }

    // Its lowest address: "the lowest is minus `negative`".
    fn lowest(self) -> SectorAddress
        ensures { result.0 ≡ neg_ℤ (pos (contents self).negative) }
    {
        SectorAddress(0 - (self.negative as i64))
    }

    // The address of table entry n: the lowest one and n.
    pub fn address(self, n: EntryNumber) -> SectorAddress
        requires { n.0 < 2 ^ 63 }
        ensures { result.0 ≡ neg_ℤ (pos (contents self).negative) +ℤ pos n.0 }
    {
        SectorAddress((n.0 as i64) - (self.negative as i64))
    }

    // Its addresses. The lowest has two bytes and a sign, which the listing's room needs.
    pub fn range(self) -> AddressRange
        ensures { (result ≡ range_of (contents self)) × ((contents self).negative < 2 ^ 16) }
    {
        AddressRange {
            count: self.count,
            lowest: self.lowest(),
        }
    }

    // The entries of the table. Each function goes by the kind first, and has its widths, and that the first kind has no alignment, as constants: of a loop over
    // all entries, as the search has one, the compiler then makes one for each kind.

    // Where table entry n stands.
    pub fn entry_place(self, n: EntryNumber) -> ByteOffset
        requires { table_entry_at (contents self) n.0 < 2 ^ 64 }
        ensures { result.0 ≡ table_entry_at (contents self) n.0 }
    {
        let table = self.table;
        match self.kind {
            TableKind::First => ByteOffset(table.0 + TABLE_HEADER + TABLE_ENTRY * n.0),
            TableKind::Second => ByteOffset(table.0 + SECOND_HEADER + SECOND_ENTRY * n.0),
        }
    }

    // Whether such an entry is not written.
    pub fn is_unwritten(self, entry: u64) -> bool
        ensures { result ≡ unwritten (contents self).kind entry }
    {
        match self.kind {
            TableKind::First => entry == 0,
            TableKind::Second => entry / 0x1000_0000 == 0,
        }
    }

    // Whether it has a status other than dumped, where it is not unwritten.
    pub fn is_unknown(self, entry: u64) -> bool
        ensures { result ≡ unknown (contents self).kind entry }
    {
        match self.kind {
            TableKind::First => false,
            TableKind::Second => entry / 0x1000_0000 != 1,
        }
    }

    // What a table entry of the image that opened as t encodes.
    pub fn decoded(self, entry: u64) -> Pointer
        requires { Decodes (contents self) }
        ensures { result ≡ decode (contents self).shift (contents self).alignment (entry_pointer (contents self).kind entry) }
    {
        match self.kind {
            TableKind::First => tables::decode(self.shift, 0, entry),
            TableKind::Second => tables::decode(self.shift, self.alignment, entry % 0x1000_0000),
        }
    }

    // The number of an address's table entry: address + negative, where that is not below 0 and below the count. No address becomes one anywhere else.
    pub fn entry_number(self, a: SectorAddress) -> Option<EntryNumber>
        ensures { IsNumbered (contents self) a.0 result }
    {
        let n = magnitude(a.0);
        let up = self.negative as u64;
        let count = self.count;
        if a.0 < 0 {
            if up < n {
                return None;
            }
            let number = up - n;
            if number < count {
                return Some(EntryNumber(number));
            }
            return None;
        }
        if count <= up {
            return None;
        }
        if n < count - up {
            return Some(EntryNumber(n + up));
        }
        None
    }

    // Whether an address has no table entry.
    pub fn is_outside(self, a: SectorAddress) -> bool
        ensures { result ≡ outside (contents self) a.0 }
    {
        self.entry_number(a).is_none()
    }
}
