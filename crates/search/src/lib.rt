// Internal: what a table entry of a disc has whose sectors were all checked, and the search for a sector that holds given bytes, on
// such a disc and among sectors of one size that stand one after another.
//
// Cost: a comparison for each sector looked at, which ends at the first difference in size or bytes. No checksum is computed.
#![tactic(auto)]

ghost use Rattle.std.specs.Prelude.{◌≡◌, ◌+◌, ◌*◌, ◌≤◌, ◌<◌, length, drop};
ghost use Rattle.format.specs.Committing.{on_disc, among_stored, pieces};
ghost use Rattle.opening.specs.Images.{held};
ghost use Rattle.search.specs.Found.{Checked, entry_found, item_found, slot_at};

use format::{ByteOffset, EntryNumber, ItemNumber, Place};
use opening::Image;

// What table entry a has: a sector, or nothing. It is read once.
pub fn slot_at<'a>(image: Image<'a>, a: EntryNumber) -> Option<Place>
    requires { Checked image.bytes.now (held image) × (a.0 < (held image).count) }
    ensures { result ≡ slot_at image.entry.bytes.now (held image.entry) a.0 }
{
    let p = image.written(a)?;
    Some(sectors::place(image.bytes, p))
}

// The first table entry of the disc whose sector holds these bytes, length included.
pub fn on_disc<'a, 'b>(image: Image<'a>, sector: &'b [u8]) -> Option<EntryNumber>
    requires { Checked image.bytes.now (held image) }
    ensures { entry_found result ≡ on_disc image.entry.bytes.now (held image.entry) sector.now }
{
    let s = image.bytes;
    let size = sector.len();
    let count = image.found.count();
    // nested loops left by a label, the form that document 01 asks for here and in `among`; by the number alone, since with an Option the loop sets both its
    // parts at each entry and a commit takes 1.3 times as long
    let found = 'search: {
        // an iteration for each table entry, up to the one that is found; within it at most one for each byte, up to the first that differs
        for a in 0..count {
            let Some(place) = slot_at(image, EntryNumber(a)) else {
                continue;
            };
            if place.size != size as u64 {
                continue;
            }
            let start = place.start.0 as usize;
            let mut j: usize = 0;
            loop {
                if j == size {
                    break 'search a;
                }
                if s[start + j] != sector[j] {
                    break;
                }
                j += 1;
            }
        }
        count
    };
    if found == count {
        return None;
    }
    Some(EntryNumber(found))
}

// The first of the n sectors that stand one after another from `at` on that holds these bytes; each has as many.
pub fn among(s: &[u8], at: ByteOffset, n: u64, sector: &[u8]) -> Option<ItemNumber>
    requires { at.0 + n * length sector.now ≤ length s.now }
    ensures { item_found result ≡ among_stored (pieces n (length sector.now) (drop at.0 s.now)) sector.now }
{
    let size = sector.len();
    let first = at.0 as usize;
    let mut found = None;
    // an iteration for each sector, up to the one that is found; within it at most one for each byte, up to the first that differs
    let mut i: u64 = 0;
    'search: while i < n {
        let start = first + (i as usize) * size;
        let mut j: usize = 0;
        loop {
            if j == size {
                found = Some(ItemNumber(i));
                break 'search;
            }
            if s[start + j] != sector[j] {
                break;
            }
            j += 1;
        }
        i += 1;
    }
    found
}
