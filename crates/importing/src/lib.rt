// Importing a flat file: the public call `import`, which `flat` passes on. No sector of a new disc is written, so only the file itself
// is searched. Whether there is room, 35, is decided before anything is written, by counting the sectors that equal none before them.
//
// Cost: each sector is compared with those before it, up to the first that is equal, once in the file, since which sectors are stored has
// to be known before anything is written, and once among the stored ones; else linear in what is read and written.
#![tactic(auto)]

ghost use Rattle.std.specs.Prelude.{◌≡◌, ℕ, length};
ghost use Rattle.format.specs.Importing.{import};
ghost use Rattle.format.specs.Answers.{answered};
ghost use Rattle.planning.specs.Plans.{sector_of};
ghost use Rattle.composing.specs.Composes.{stored_of, filled, Lays};
ghost use Rattle.importing.specs.Imports.{Files};

use composing::Layout;
use format::{Check, Placed, Refusal, Stamp};

// How many of the first `count` sectors of the file are stored, wherever the block will be.
fn count_stored(file: &[u8], count: u64, size: u64) -> u64
    requires { Files file.now count size }
    ensures { (block : ℕ) → result ≡ length (stored_of block (sector_of size file.now) count).items }
{
    let mut stored: u64 = 0;
    // an iteration for each sector, which is compared with those before it, up to the first that is equal
    for k in 0..count {
        if !planning::is_new(file, size, k) {
            continue;
        }
        stored += 1;
    }
    stored
}

// Writes the sectors that are stored, behind the place of the block's header, and the table's entries.
fn put_entries(buf: &mut [u8], file: &[u8], count: u64, size: u64, at: Layout)
    requires { Files file.now count size × Lays buf.old (sector_of size file.now) count size at }
    ensures { buf.new ≡ filled buf.old (sector_of size file.now) count at }
{
    let mut stored: u64 = 0;
    // an iteration for each sector, which is compared with those stored before it, up to the first that is equal
    for a in 0..count {
        let sector = fields::part(file, a * size, size);
        stored = composing::enter(buf, at, a, sector, stored);
    }
}

// Makes an image at the start of the buffer whose sectors are those of a flat file, each of `size` bytes: what a creation and one commit
// of all sectors at the last time would leave, and that commit's answer. Or says why it can't: 31, 30, 42, 33, 35. Later bytes of the
// buffer stay as they are.
pub fn import<'a, 'b, 'c>(
    buffer: &'b mut [u8],
    file: &'c [u8],
    size: u64,
    stamp: Stamp<'a>,
) -> Result<Placed, Refusal>
    ensures { answered result buffer.new ≡ import buffer.old file.now size stamp.entry.application.now stamp.entry.major stamp.entry.minor stamp.entry.media_type stamp.entry.created stamp.entry.written }
{
    arguments::import_verdict(buffer, file, size, stamp.application)?;
    let count = file.len() as u64 / size;
    let stored = count_stored(file, count, size);
    let at = composing::lay_out(count, size, stored);
    let end = at.end;
    let index = at.index;
    let length = buffer.len() as u64;
    if length < end {
        return Err(Refusal::of(Check::NoRoom));
    }
    records::put_image(buffer, count, stamp);
    put_entries(buffer, file, count, size, at);
    composing::finish(buffer, count, size, stored, at, stamp.written);
    Ok(Placed { used: end, index })
}
