// Internal: a pair of images, the child and its parent (8/13): a refusal of the parent as the pair gives it, and what flattening asks of a pair whose sectors
// were all checked. Its child has a table of the first kind, so its addresses are the numbers of its table entries; the parent's table may be of either kind.
//
// Cost of a sector: its table entry in the child, and where that is not written the one in the parent, is read once. No checksum is computed. The sizes are
// one pass over the addresses for each call, and whether a sector is new is a comparison with each lower one.
#![tactic(auto)]

ghost use Rattle.std.specs.Prelude.{not, ◌≡◌, ◌≤◌, ◌<◌, length, Ok};
ghost use Rattle.fields.specs.Bytes.{equal};
ghost use Rattle.format.specs.Tests.{same, below, ◌or◌};
ghost use Rattle.format.specs.Reading.{read};
ghost use Rattle.format.specs.Writing.{most_sectors, largest_size, most_addresses};
ghost use Rattle.format.specs.Answers.{bytes_read};
ghost use Rattle.format.specs.Committing.{other_than_21};
ghost use Rattle.format.specs.Overlaying.{parent_refusal, from_parent};
ghost use Rattle.format.specs.Flattening.{count_of, size_of, any_other, verdict_of, sizes_verdict};
ghost use Rattle.opening.specs.Images.{held};
ghost use Rattle.pairs.specs.Pairs.{entry_answer, EntryChecked, held_below};
ghost use Rattle.pairs.specs.Sectors.{sector_of, written_in};

use fields::part;
use format::{
    Check, EntryNumber, LARGEST_SIZE, MOST_ADDRESSES, MOST_SECTORS, Refusal, SectorAddress,
};
use opening::Image;

mod pair; // the pair: the two images, all of whose sectors were checked

pub use pair::{Pair, Parent};

// A refusal of the parent, as the pair gives it: 20 and 21 as 21, any other with 100 added. A read's are at most 73, so that the sum is no larger number's.
#[tactic(auto, using(crate::proofs::ParentRefusal::parent_numbers))]
pub fn parent_refusal(r: Refusal) -> Refusal
    requires { r.number ≤ 73 }
    ensures { result ≡ parent_refusal r }
{
    if r.is(Check::AddressOutside) || r.is(Check::NotWritten) {
        return Refusal::of(Check::NotWritten);
    }
    Refusal {
        number: 100 + r.number,
        place: r.place,
    }
}

// The sector of table entry n of an image that was checked there, empty where it is not written.
fn entry_sector<'a>(image: Image<'a>, n: EntryNumber) -> &'a [u8]
    requires { EntryChecked image.bytes.now (held image) n.0 }
    ensures { result.now ≡ bytes_read (entry_answer image.entry.bytes.now (held image.entry) n.0) }
{
    let s = image.bytes;
    let t = image.found;
    let e = image.table_entry(n);
    if t.is_unwritten(e) {
        return part(s, 0, 0);
    }
    let place = sectors::place(s, t.decoded(e));
    part(s, place.start.0, place.size)
}

// Check 30 of a disc of so many addresses, of which so many have a sector, and of this size.
#[tactic(auto, using(format::proofs::Tests::either_test))]
fn is_over(count: u64, size: u64, written: u64) -> bool
    ensures { result ≡ (same count 0 or below most_sectors count or below largest_size size or below most_addresses written) }
{
    count == 0 || MOST_SECTORS < count || LARGEST_SIZE < size || MOST_ADDRESSES < written
}

// Whether two sectors hold the same bytes, length included.
#[tactic(auto, using(crate::proofs::Written::same_bytes))]
fn is_same(x: &[u8], y: &[u8]) -> bool
    ensures { result ≡ equal x.now y.now }
{
    x.len() == y.len() && fields::matches(x, 0, y)
}

impl<'a> Pair<'a> {
    // The parent's sector at address a, empty where it has none: it does not open, or the address is outside or not written.
    fn parent_sector(self, a: SectorAddress) -> &'a [u8]
        requires { other_than_21 (verdict_of (from_parent (read self.parent.bytes.now a.0))) ≡ Ok tt }
        ensures { result.now ≡ bytes_read (from_parent (read self.entry.parent.bytes.now a.0)) }
    {
        let Ok(image) = self.parent.opened else {
            return part(self.parent.bytes, 0, 0);
        };
        match image.found.entry_number(a) {
            None => part(self.parent.bytes, 0, 0),
            Some(n) => entry_sector(image, n),
        }
    }

    // The pair's sector at address n of the child, empty where it has none.
    pub fn sector(self, n: EntryNumber) -> &'a [u8]
        requires { n.0 < (held self.child).count }
        ensures { result.now ≡ sector_of self.entry n.0 }
    {
        let own = entry_sector(self.child, n);
        if 0 < own.len() {
            return own;
        }
        self.parent_sector(self.child.found.address(n))
    }

    // The size of the first sector that the pair has, 0 where it has none, as `size_of` has it.
    pub fn size(self) -> u64
        ensures { result ≡ size_of (written_in self.entry) }
    {
        // an iteration for each address, up to the first that has a sector
        for n in 0..self.child.found.count() {
            let size = self.sector(EntryNumber(n)).len() as u64;
            if 0 < size {
                return size;
            }
        }
        0
    }

    // How many sectors the pair has.
    pub fn count_written(self) -> u64
        ensures { result ≡ length (written_in self.entry) }
    {
        let mut written: u64 = 0;
        // an iteration for each address
        for n in 0..self.child.found.count() {
            if 0 < self.sector(EntryNumber(n)).len() {
                written += 1;
            }
        }
        written
    }

    // Whether a sector of the pair has another size than this.
    fn any_other(self, size: u64) -> bool
        ensures { result ≡ any_other size (written_in self.entry) }
    {
        // an iteration for each address, up to the first whose sector has another size
        for n in 0..self.child.found.count() {
            let other = self.sector(EntryNumber(n)).len() as u64;
            if 0 < other && other != size {
                return true;
            }
        }
        false
    }

    // The pair's sectors, of which there are so many, the first of this size: 40 if one has another, then 30.
    pub fn sizes_verdict(self, size: u64, written: u64) -> Result<(), Refusal>
        requires { (size ≡ size_of (written_in self)) × (written ≡ length (written_in self)) }
        ensures { result ≡ sizes_verdict (count_of self.entry.child.bytes.now) (written_in self.entry) }
    {
        if self.any_other(size) {
            return Err(Refusal::of(Check::SizesDiffer));
        }
        if is_over(self.child.found.count(), size, written) {
            return Err(Refusal::of(Check::SizeRefused));
        }
        Ok(())
    }

    // Whether no address below n has the same sector. Each comparison ends at a difference in size, or within 64 bytes of the first byte that differs.
    pub fn is_new(self, n: EntryNumber) -> bool
        requires { n.0 < (held self.child).count }
        ensures { result ≡ not (held_below (sector_of self.entry) (sector_of self.entry n.0) n.0) }
    {
        let own = self.sector(n);
        // an iteration for each address below, the nearest first, up to the first that has it
        for below in (0..n.0).rev() {
            let other = self.sector(EntryNumber(below));
            if is_same(other, own) {
                return false;
            }
        }
        true
    }
}
