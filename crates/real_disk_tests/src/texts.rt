//! Contents of slots.
use std::alloc::Global;
use std::io;
use tree_face::Slot;
use trial_devices::Random;

const LENGTHS: &[usize] = &[0, 1, 24, 63, 64, 65, 300, 4095, 4096, 4097, 9000];

// The first bytes of a cache (ld.so.cache has this text first).
const MAGIC: &[u8] = b"glibc-ld.so.cache1.1";

/// A content of random length. Half of them begin like a cache.
pub fn text_of(alloc: Global, random: &mut Random) -> io::Result<Vec<u8>> {
    let mut text = Vec::new(alloc);
    if random.once_in(2) {
        text.extend_from_slice(MAGIC)?;
    }
    let length = LENGTHS[random.below(LENGTHS.len())];
    text.extend_from_slice(random.bytes(alloc, length)?.as_slice())?;
    Ok(text)
}

/// What is read of a slot with this content: the first bytes of a text are enough to show that it isn't a cache.
pub fn shown(slot: Slot, content: &[u8]) -> &[u8] {
    let is_cache = content.len() >= 24 && content.starts_with(MAGIC);
    if slot == Slot::Cache && !is_cache {
        &content[..content.len().min(64)]
    } else {
        content
    }
}
