// Internal: an image's header and its index, checks 1 to 10 of document 01 in its order.
//
// Cost: the index is passed over twice, for its checksum and for its entries.
#![tactic(auto)]

ghost use Rattle.std.specs.Prelude.{List, ◌∷◌, ◌≡◌, ℕ, ◌+◌, ◌*◌, ◌≤◌, length};
ghost use Rattle.format.specs.Tests.{◌and◌, choose};
ghost use Rattle.format.specs.Refusals.{answer};
ghost use Rattle.format.specs.Layouts.{AARUFRMT, DICMFRMT, index_header_length, entry_count, entry_length, entry_at};
ghost use Rattle.format.specs.Opening.{lacks, header_verdict, index_verdict, entry_verdict, is_type, is_user_data, is_table, table_at};
ghost use Rattle.index.specs.Tables.{named_verdict, one_answer, before, only_one};

mod lent; // an index as it lies in an image, and its entries

use crc64::checksum;
use fields::{get, part, put, room, spells};
use format::{ByteOffset, Check, Entry, HEADER_LENGTH, IMAGE_MAJOR, Refusal};
pub use lent::Index;

// The tables among the index entries seen so far: three states, one more than an Option has.
#[derive(Clone, Copy)]
enum Tables {
    None,
    One(ByteOffset),
    More,
}

// The image begins with neither of the two identifiers that a header may have.
#[tactic(auto, using(format::proofs::Tests::each_test), unfolding(format::specs::Opening::lacks))]
fn unknown(s: &[u8]) -> bool
    requires { 8 ≤ length s.now }
    ensures { result ≡ (lacks s.now 0 AARUFRMT and lacks s.now 0 DICMFRMT) }
{
    !spells(s, 0, b"AARUFRMT") && !spells(s, 0, b"DICMFRMT")
}

// The header: checks 1 to 3.
pub fn header_verdict(s: &[u8]) -> Result<(), Refusal>
    ensures { result ≡ header_verdict s.now }
{
    if (s.len() as u64) < HEADER_LENGTH {
        return Err(Refusal::of(Check::HeaderCutOff));
    }
    if unknown(s) {
        return Err(Refusal::of(Check::UnknownIdentifier));
    }
    if get(s, IMAGE_MAJOR, 1) != 2 {
        return Err(Refusal::of(Check::UnknownVersion));
    }
    Ok(())
}

// The index at o: checks 4 to 6. One pass over its entries for the checksum.
pub fn index_verdict(s: &[u8], o: ByteOffset) -> Result<(), Refusal>
    ensures { result ≡ index_verdict s.now o.0 }
{
    let index = o.0;
    if index < HEADER_LENGTH {
        return Err(Refusal::at(Check::IndexOutside, o));
    }
    if room(s, index) < 20 {
        return Err(Refusal::at(Check::IndexOutside, o));
    }
    if !spells(s, index, b"IDX2") {
        return Err(Refusal::at(Check::NotAnIndex, o));
    }
    let entries = get(s, index + 4, 8);
    if room(s, index + 20) / 16 < entries {
        return Err(Refusal::at(Check::IndexOutside, o));
    }
    if checksum(part(s, index + 20, 16 * entries)) != get(s, index + 12, 8) {
        return Err(Refusal::at(Check::IndexChecksum, o));
    }
    Ok(())
}

// The index entry at p.
pub fn entry(s: &[u8], p: ByteOffset) -> Entry
    requires { p.0 + 16 ≤ length s.now }
    ensures { result ≡ entry_at s.now p.0 }
{
    let at = p.0;
    let blockType = get(s, at, 4);
    let dataType = get(s, at + 4, 4);
    let offset = ByteOffset(get(s, at + 8, 8));
    Entry {
        blockType,
        dataType,
        offset,
    }
}

// The index entry e, which stands at p: checks 7 and 8.
fn entry_verdict(s: &[u8], p: ByteOffset, e: Entry) -> Result<(), Refusal>
    requires { e ≡ entry_at s.now p.0 }
    ensures { result ≡ entry_verdict s.now p.0 }
{
    let at = e.offset.0;
    if at < HEADER_LENGTH {
        return Err(Refusal::at(Check::EntryOutside, p));
    }
    if room(s, at) < 4 {
        return Err(Refusal::at(Check::EntryOutside, p));
    }
    if get(s, at, 4) != e.blockType {
        return Err(Refusal::at(Check::EntryMismatch, p));
    }
    Ok(())
}

// The entry is for this kind of block: the four bytes of its blockType are these letters.
pub fn is_type(e: Entry, letters: &[u8; 4]) -> bool
    ensures { result ≡ is_type letters.now e }
{
    let mut bytes = [0; 4];
    put(&mut bytes, 0, 4, e.blockType);
    spells(&bytes, 0, letters)
}

// The entry is for this kind of block, of user data.
#[tactic(auto, using(format::proofs::Tests::each_test), unfolding(format::specs::Opening::is_user_data))]
pub fn is_user_data(e: Entry, letters: &[u8; 4]) -> bool
    ensures { result ≡ is_user_data letters.now e }
{
    is_type(e, letters) && e.dataType == 1
}

// The entry is for a table of either kind, of user data.
#[tactic(auto, using(format::proofs::Tests::either_test), unfolding(format::specs::Opening::is_table))]
fn is_table(e: Entry) -> bool
    ensures { result ≡ is_table e }
{
    is_user_data(e, b"DDT*") || is_user_data(e, b"DDT2")
}

// The tables seen so far, and one more entry.
fn with_entry(seen: Tables, e: Entry) -> Tables
    ensures { (o : ℕ) (l : List ℕ) → one_answer o (before result l) ≡ one_answer o (before seen (choose (is_table e) (e.offset.0 ∷ l) l)) }
{
    if is_table(e) {
        return match seen {
            Tables::None => Tables::One(e.offset),
            Tables::One(_) => Tables::More,
            Tables::More => Tables::More,
        };
    }
    seen
}

// The one table that an index names. Each entry is checked in turn, 7 and 8; then the tables among them, 9 and 10. One pass over the entries.
pub fn one_table<'a>(index: Index<'a>) -> Result<ByteOffset, Refusal>
    ensures { only_one result ≡ answer (named_verdict index.entry.bytes.now index.entry.at.0) (table_at index.entry.bytes.now index.entry.at.0) }
{
    let mut seen = Tables::None;
    // an iteration for each entry
    for i in 0..index.count() {
        let e = index.entry(i);
        entry_verdict(index.bytes, index.place(i), e)?;
        seen = with_entry(seen, e);
    }
    match seen {
        Tables::None => Err(Refusal::at(Check::NoTable, index.at)),
        Tables::One(t) => Ok(t),
        Tables::More => Err(Refusal::at(Check::SeveralTables, index.at)),
    }
}
