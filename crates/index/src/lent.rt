// An index and its entries. Its last field says that they lie in the image.
ghost use Rattle.std.specs.Prelude.{◌≡◌, ◌+◌, ◌*◌, ◌≤◌, ◌<◌, length};
ghost use Rattle.format.specs.Layouts.{index_header_length, entry_count, entry_length, entry_at};
ghost use Rattle.index.specs.Entries.{entry_place};

use fields::get;
use format::{ByteOffset, Entry};

// The image's bytes, and where its index stands.
#[derive(Clone, Copy)]
pub struct Index<'a> {
    pub bytes: &'a [u8],
    pub at: ByteOffset,
    ghost inside: { at.0 + index_header_length + entry_length * entry_count bytes.now at.0 ≤ length bytes.now },
}

impl<'a> Index<'a> {
    // How many entries it has.
    #[tactic(auto, unfolding(format::specs::Layouts::entry_count))]
    pub fn count(self) -> u64
        ensures { result ≡ entry_count self.entry.bytes.now self.entry.at.0 }
    {
        get(self.bytes, self.at.0 + 4, 8)
    }

    // Where entry i stands.
    pub fn place(self, i: u64) -> ByteOffset
        requires { i < entry_count self.bytes.now self.at.0 }
        ensures { result.0 ≡ entry_place self.entry.at.0 i }
    {
        ByteOffset(self.at.0 + 20 + 16 * i)
    }

    // Entry i.
    pub fn entry(self, i: u64) -> Entry
        requires { i < entry_count self.bytes.now self.at.0 }
        ensures { result ≡ entry_at self.entry.bytes.now (entry_place self.entry.at.0 i) }
    {
        super::entry(self.bytes, self.place(i))
    }
}
