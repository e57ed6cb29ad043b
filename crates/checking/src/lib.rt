// Internal: the checks of all sectors of an opened disc by rising address. A commit makes 74 of its table (11/13) and 20 of its addresses before them, and
// leaves out 21, as an export does (9/13); one by 4/13's rule gives 21 too. Also the checks of those sectors of a parent that a child leaves to it (8/13).
//
// Cost, with E table entries and I index entries: each data block that the index names is summed once at most, however often it is named. To
// look blocks up takes at most E times I comparisons of numbers, and E plus I for each run of neighbours where neighbouring entries share
// a block; to see that an entry's block is named again, at most half of I times I; each damaged block, at most E. To see whether a child leaves a
// written entry to its parent, one of the child's table entries is read each time that the parent's is.
#![tactic(auto)]

ghost use Rattle.std.specs.Prelude.{true, false, not, List, ◌∷◌, ◌≡◌, ℕ, ◌+◌, ◌-◌, ◌*◌, ◌^◌, ◌≤◌, ◌<◌, length};
ghost use Rattle.format.specs.Tests.{◌and◌};
ghost use Rattle.format.specs.Refusals.{first_refusal};
ghost use Rattle.format.specs.Layouts.{index_offset, entry_count, entries};
ghost use Rattle.format.specs.Reading.{table_entry, unwritten, has, pointer_at, sector_verdict};
ghost use Rattle.format.specs.Committing.{any_outside, sectors_verdict, disc_verdict};
ghost use Rattle.opening.specs.Answers.{contents};
ghost use Rattle.opening.specs.Images.{held};
ghost use Rattle.checking.specs.Checked.{leaves, in_scope, looked_at, indexed, form_verdict, entry_form, Formed, damaged, FirstLeft, FirstOn, FirstWithin, FirstRefused, FirstOfAll};

use format::{ByteOffset, Check, EntryNumber, INDEX_OFFSET, Pointer, Refusal, SectorAddress};
use opening::{Image, Opened};

// The first table entry that is refused, and how; their number where none is.
#[derive(Clone, Copy)]
pub struct First {
    pub number: EntryNumber,
    pub verdict: Result<(), Refusal>,
}

// Which table entries are looked at: all, or those of a parent whose addresses a child has not written. Two values, which the proofs go by; a closure would
// have its answer equated with the same two definitions.
#[derive(Clone, Copy)]
enum Scope<'a> {
    All,
    Gaps(Child<'a>),
}

// The child, and the first of its table entries that doesn't count.
#[derive(Clone, Copy)]
struct Child<'a> {
    image: Image<'a>,
    limit: EntryNumber,
}

// Whether an address of the list has no table entry.
fn any_outside(t: Opened, addresses: &[i64]) -> bool
    ensures { result ≡ any_outside (contents t) addresses.now }
{
    // an iteration for each address, up to the first that is outside
    for a in addresses {
        if t.is_outside(SectorAddress(*a)) {
            return true;
        }
    }
    false
}

// Whether the child leaves table entry n of the parent that opened as t to it: its address has a table entry of the child below the limit, and that
// one is not written.
fn is_left<'a>(c: Child<'a>, t: Opened, n: EntryNumber) -> bool
    requires { n.0 < 2 ^ 63 }
    ensures { result ≡ leaves c.entry.image.bytes.now (held c.entry.image) c.entry.limit.0 (contents t) n.0 }
{
    let child = c.image;
    let u = child.found;
    match u.entry_number(t.address(n)) {
        None => false,
        Some(m) => m < c.limit && u.is_unwritten(child.table_entry(m)),
    }
}

// Whether table entry n of the disc that opened as t is in the scope.
fn is_in_scope<'a>(scope: Scope<'a>, t: Opened, n: EntryNumber) -> bool
    requires { n.0 < 2 ^ 63 }
    ensures { result ≡ in_scope scope.entry (contents t) n.0 }
{
    match scope {
        Scope::All => true,
        Scope::Gaps(c) => is_left(c, t, n),
    }
}

// Whether table entry n, whose number is e, is looked at: it is written and in the scope.
#[tactic(auto, using(format::proofs::Tests::each_test))]
fn is_looked_at<'a>(scope: Scope<'a>, t: Opened, n: EntryNumber, e: u64) -> bool
    requires { n.0 < 2 ^ 63 }
    ensures { result ≡ (not (unwritten (contents t).kind e) and in_scope scope.entry (contents t) n.0) }
{
    !t.is_unwritten(e) && is_in_scope(scope, t, n)
}

// What p, whose table entry stands at `place`, points to, but for the block's checksums: checks 22 to 26. Of the block that is known only
// the item's number is looked at.
fn form_verdict<'a>(
    image: Image<'a>,
    place: ByteOffset,
    p: Pointer,
    known: Option<ByteOffset>,
) -> Result<(), Refusal>
    requires { Formed image.bytes.now known }
    ensures { result ≡ form_verdict image.entry.bytes.now place.0 p }
{
    let s = image.bytes;
    let b = p.block;
    if sectors::is_known(b, known) {
        return sectors::number_verdict(s, p);
    }
    if sectors::is_indexed(image.index(), b) {
        sectors::block_verdict(s, b)?;
        return sectors::number_verdict(s, p);
    }
    Err(Refusal::at(Check::BlockNotIndexed, place))
}

// Table entry n, whose number is e, which is written and encodes p, but for its block's checksums: 73, then checks 22 to 26.
fn entry_form<'a>(
    image: Image<'a>,
    n: EntryNumber,
    e: u64,
    p: Pointer,
    known: Option<ByteOffset>,
) -> Result<(), Refusal>
    requires { (n.0 < (held image).count) × (e ≡ table_entry image.bytes.now (held image) n.0) × (p ≡ pointer_at image.bytes.now (held image) n.0) × Formed image.bytes.now known }
    ensures { result ≡ entry_form image.entry.bytes.now (held image.entry) n.0 }
{
    let t = image.found;
    if t.is_unknown(e) {
        return Err(Refusal::of(Check::UnknownStatus));
    }
    form_verdict(image, t.entry_place(n), p, known)
}

// The first table entry of the scope that is refused other than with 21, by all checks but that of the checksums.
fn first_form<'a, 'b>(image: Image<'a>, scope: Scope<'b>) -> First
    ensures { FirstLeft image.entry.bytes.now (held image.entry) (looked_at image.entry.bytes.now (held image.entry) scope.entry) (indexed image.entry.bytes.now) result }
{
    let t = image.found;
    let count = t.count();
    let mut known: Option<ByteOffset> = None;
    // an iteration for each table entry, up to the first that is refused
    for a in 0..count {
        let here = EntryNumber(a);
        let e = image.table_entry(here);
        if !is_looked_at(scope, t, here, e) {
            continue;
        }
        let p = t.decoded(e);
        if let Err(r) = entry_form(image, here, e, p, known) {
            return First {
                number: here,
                verdict: Err(r),
            };
        }
        known = Some(p.block);
    }
    First {
        number: EntryNumber(count),
        verdict: Ok(()),
    }
}

// Whether the block at b is well formed and one of its checksums is wrong. One pass over it.
#[tactic(auto, using(crate::proofs::Forms::damage))]
fn is_damaged(s: &[u8], b: ByteOffset) -> bool
    ensures { result ≡ damaged s.now b.0 }
{
    sectors::block_verdict(s, b).is_ok() && sectors::block_sums_differ(s, b)
}

// The first table entry of the scope below `first` that points into the damaged block at b, with 27; `first` where there is none.
fn first_into<'a, 'b>(image: Image<'a>, scope: Scope<'b>, b: ByteOffset, first: First) -> First
    requires { (first.number.0 ≤ (held image).count) × (damaged image.bytes.now b.0 ≡ true) }
    ensures { (left : List ℕ) → has b.0 left ≡ false → FirstLeft image.entry.bytes.now (held image.entry) (looked_at image.entry.bytes.now (held image.entry) scope.entry) (b.0 ∷ left) first → FirstLeft image.entry.bytes.now (held image.entry) (looked_at image.entry.bytes.now (held image.entry) scope.entry) left result }
{
    let t = image.found;
    // an iteration for each entry below, up to the first that points into the block
    for a in 0..first.number.0 {
        let here = EntryNumber(a);
        let e = image.table_entry(here);
        if !is_looked_at(scope, t, here, e) {
            continue;
        }
        if t.decoded(e).block == b {
            return First {
                number: here,
                verdict: Err(Refusal::at(Check::BlockChecksum, b)),
            };
        }
    }
    first
}

// The first table entry once the block of index entry i is looked at. An entry whose block a later one names again is passed over, so that no
// block is summed twice.
fn with_block<'a, 'b>(image: Image<'a>, scope: Scope<'b>, i: u64, first: First) -> First
    requires { (i < entry_count image.bytes.now (index_offset image.bytes.now)) × FirstOn image.bytes.now (held image) (looked_at image.bytes.now (held image) scope) i first }
    ensures { FirstOn image.entry.bytes.now (held image.entry) (looked_at image.entry.bytes.now (held image.entry) scope.entry) (i + 1) result }
{
    let index = image.index();
    let e = index.entry(i);
    if !index::is_user_data(e, b"DBLK") {
        return first;
    }
    let b = e.offset;
    let behind = ByteOffset(index.place(i).0 + 16);
    if sectors::names(image.bytes, behind, index.count() - (i + 1), b) {
        return first;
    }
    if is_damaged(image.bytes, b) {
        return first_into(image, scope, b, first);
    }
    first
}

// All sectors of the scope by rising address, that is, by the numbers of their table entries: the first that is refused other than with 21.
fn first_within<'a, 'b>(image: Image<'a>, scope: Scope<'b>) -> First
    ensures { FirstWithin image.entry.bytes.now (held image.entry) (in_scope scope.entry (held image.entry)) result }
{
    let mut first = first_form(image, scope);
    // an iteration for each index entry
    for i in 0..image.index().count() {
        first = with_block(image, scope, i, first);
    }
    first
}

// The first of all sectors that is refused other than with 21.
pub fn first_refused<'a>(image: Image<'a>) -> First
    ensures { FirstRefused image.entry.bytes.now (held image.entry) result }
{
    first_within(image, Scope::All)
}

// The first of the sectors that a child leaves to this parent by its table entries below the limit.
pub fn first_left<'a, 'b>(image: Image<'a>, child: Image<'b>, limit: EntryNumber) -> First
    ensures { FirstWithin image.entry.bytes.now (held image.entry) (leaves child.entry.bytes.now (held child.entry) limit.0 (held image.entry)) result }
{
    first_within(
        image,
        Scope::Gaps(Child {
            image: child,
            limit,
        }),
    )
}

// The refusal of the first of all.
pub fn sectors_verdict<'a>(image: Image<'a>) -> Result<(), Refusal>
    ensures { result ≡ sectors_verdict image.entry.bytes.now (entries image.entry.bytes.now (index_offset image.entry.bytes.now)) (held image.entry) }
{
    let first = first_refused(image);
    first.verdict
}

// The first table entry that is refused, 21 too: one below `first`, the first that is refused other than with 21, that is not written, or `first`.
pub fn first_unwritten<'a>(image: Image<'a>, first: First) -> First
    requires { FirstRefused image.bytes.now (held image) first }
    ensures { FirstOfAll image.entry.bytes.now (held image.entry) result }
{
    // an iteration for each entry below, up to the first that is not written
    for n in 0..first.number.0 {
        let here = EntryNumber(n);
        if image.found.is_unwritten(image.table_entry(here)) {
            return First {
                number: here,
                verdict: Err(Refusal::of(Check::NotWritten)),
            };
        }
    }
    first
}

// All sectors by rising address, 21 too: the first refusal.
pub fn every_verdict<'a>(image: Image<'a>) -> Result<(), Refusal>
    ensures { result ≡ first_refusal (sector_verdict image.entry.bytes.now (entries image.entry.bytes.now (index_offset image.entry.bytes.now)) (held image.entry)) (held image.entry).count 0 }
{
    let first = first_unwritten(image, first_refused(image));
    first.verdict
}

// A commit's checks of the disc: 74, 20, then all sectors.
pub fn disc_verdict<'a, 'b>(image: Image<'a>, addresses: &'b [i64]) -> Result<(), Refusal>
    ensures { result ≡ disc_verdict image.entry.bytes.now (index_offset image.entry.bytes.now) addresses.now }
{
    image.found.kind_verdict()?;
    if any_outside(image.found, addresses) {
        return Err(Refusal::of(Check::AddressOutside));
    }
    sectors_verdict(image)
}
