// Internal: the first pass of a commit, which only looks: how many of the handed-in sectors are stored, and the largest item
// number of the new table. With these the new image's length and the table's shift are known before anything is written.
//
// Cost: each handed-in sector is compared with the sectors of the disc and with those handed in before it, up to the first
// that is equal.
#![tactic(auto)]

ghost use Rattle.std.specs.Prelude.{false, ◌≡◌, ◌+◌, ◌*◌, ◌^◌, ◌≤◌, ◌<◌, length};
ghost use Rattle.format.specs.Committing.{any_outside, entry_numbers, old_pointer, item_or_zero, shift_for};
ghost use Rattle.opening.specs.Answers.{contents};
ghost use Rattle.opening.specs.Images.{held};
ghost use Rattle.planning.specs.Plans.{is_next, is_new, Commits, plan_for, Looks, looked, looked_at};

use format::{ByteOffset, EntryNumber, ItemNumber};
use opening::{Image, Opened};

// What a commit will store: how many sectors, and the largest item number of its table.
#[derive(Clone, Copy)]
pub struct Planned {
    pub stored: u64,
    pub largest: ItemNumber,
}

// What one table entry adds: its item number, and how many sectors are stored and how many addresses of the list are used up after it.
#[derive(Clone, Copy)]
struct Looked {
    item: ItemNumber,
    stored: u64,
    k: usize,
}

// The shift of a table with this largest item number.
pub fn shift_for(largest: ItemNumber) -> u64
    ensures { result ≡ shift_for largest.0 }
{
    let zeros = u64::leading_zeros(largest.0);
    (64 - zeros) as u64
}

// Whether n is the table entry of the next address of the list, of which k are used up. None of them is outside. It compares addresses, since that of n is a
// difference, and the entry of an address takes its checks.
pub fn is_next(t: Opened, addresses: &[i64], k: usize, n: EntryNumber) -> bool
    requires { (any_outside (contents t) addresses.now ≡ false) × (n.0 < 2 ^ 63) }
    ensures { result ≡ is_next (entry_numbers (contents t) addresses.now) k n.0 }
{
    k < addresses.len() && addresses[k] == t.address(n).0
}

// The item number that table entry n has, 0 where it is not written. It is read once.
fn old_item<'a>(image: Image<'a>, n: EntryNumber) -> ItemNumber
    requires { n.0 < (held image).count }
    ensures { result.0 ≡ item_or_zero (old_pointer image.entry.bytes.now (held image.entry) n.0) }
{
    match image.written(n) {
        None => ItemNumber(0),
        Some(p) => p.item,
    }
}

// Whether sector k of those that stand one after another equals none before it.
pub fn is_new(sectors: &[u8], size: u64, k: u64) -> bool
    requires { k * size + size ≤ length sectors.now }
    ensures { result ≡ is_new size sectors.now k }
{
    let sector = fields::part(sectors, k * size, size);
    search::among(sectors, ByteOffset(0), k, sector).is_none()
}

// The handed-in sector k. One that equals an earlier one adds no item.
fn look<'a, 'b>(image: Image<'a>, size: u64, sectors: &'b [u8], k: usize, stored: u64) -> Looked
    requires { Looks image.bytes.now (held image) size sectors.now k stored }
    ensures { result ≡ looked image.entry.bytes.now (held image.entry) size sectors.now k stored }
{
    let handed = k as u64;
    let sector = fields::part(sectors, handed * size, size);
    if let Some(a) = search::on_disc(image, sector) {
        let p = image.pointer(a);
        return Looked {
            item: p.item,
            stored,
            k: k + 1,
        };
    }
    if is_new(sectors, size, handed) {
        return Looked {
            item: ItemNumber(stored),
            stored: stored + 1,
            k: k + 1,
        };
    }
    Looked {
        item: ItemNumber(0),
        stored,
        k: k + 1,
    }
}

// Entry a of the new table.
fn look_at<'a, 'b>(
    image: Image<'a>,
    addresses: &'b [i64],
    size: u64,
    sectors: &'b [u8],
    k: usize,
    a: EntryNumber,
    stored: u64,
) -> Looked
    requires { Commits image.bytes.now (held image) (entry_numbers (held image) addresses.now) size sectors.now × (any_outside (held image) addresses.now ≡ false) × (a.0 < (held image).count) × (stored ≤ k) }
    ensures { result ≡ looked_at image.entry.bytes.now (held image.entry) (entry_numbers (held image.entry) addresses.now) size sectors.now k a.0 stored }
{
    if is_next(image.found, addresses, k, a) {
        return look(image, size, sectors, k, stored);
    }
    Looked {
        item: old_item(image, a),
        stored,
        k,
    }
}

// What a commit will store.
pub fn plan<'a, 'b>(image: Image<'a>, addresses: &'b [i64], size: u64, sectors: &'b [u8]) -> Planned
    requires { Commits image.bytes.now (held image) (entry_numbers (held image) addresses.now) size sectors.now × (any_outside (held image) addresses.now ≡ false) }
    ensures { result ≡ plan_for image.entry.bytes.now (held image.entry) (entry_numbers (held image.entry) addresses.now) size sectors.now }
{
    let mut largest: u64 = 0;
    let mut stored: u64 = 0;
    let mut k: usize = 0;
    // an iteration for each table entry of the disc
    for a in 0..image.found.count() {
        let l = look_at(image, addresses, size, sectors, k, EntryNumber(a), stored);
        largest = largest.max(l.item.0);
        stored = l.stored;
        k = l.k;
    }
    Planned {
        stored,
        largest: ItemNumber(largest),
    }
}
