//! A string table: texts one after the other.
ghost use Rattle.std.specs.Prelude.{◌≡◌, ◌∷◌, ◌+◌, ◌^◌, ◌++◌, ◌<◌, [], length, take, IfOk, OnOk};
ghost use Rattle.string_pool.specs.Texts.{with_nul};
ghost use Rattle.string_pool.specs.InOrder.{table_of};

use crate::Texts;
use lib_types::NoMemory;
use std::alloc::Global;
use std::marker::Model;

/// Different texts one after the other, each followed by a NUL, from an offset of the file on.
/// Contracts see this offset and the list of the texts.
#[derive(Drop)]
pub struct Table<'a> {
    base: u32,
    texts: Texts<'a>,
    offsets: Vec<u32>,
    bytes: Vec<u8>,
}

impl<'a> Model for Table<'a> {
    ghost use Rattle.string_pool.specs.InOrder.{Strings};
    ghost use Rattle.string_pool.specs.Kept.{AreLaidOut};

    ghost Value = { Strings };

    ghost view = { λ t. record { base = t.base; texts = t.texts } };

    ghost invariant = { λ t. AreLaidOut t.base t.texts t.offsets.items t.bytes.items };
}

impl<'a> Table<'a> {
    /// A table of these texts. The first text is at this offset.
    pub fn of(alloc: Global, texts: Texts<'a>, base: u32) -> Result<Table<'a>, NoMemory>
        requires { base + length (table_of texts) < 2 ^ 32 }
        ensures { IfOk result (λ table. table ≡ record { base = base; texts = texts.entry }) }
    {
        let mut offsets = Vec::with_capacity(alloc, texts.len())?;
        let mut bytes = Vec::new(alloc);
        for text in texts.as_slice() {
            append(base, &mut offsets, &mut bytes, text.bytes)?;
        }
        Ok(Table {
            base,
            texts,
            offsets,
            bytes,
        })
    }

    /// The offset of the text with this number.
    pub fn offset(&self, number: u32) -> u32
        requires { number < length self.now.texts }
        ensures { result ≡ self.now.base + length (table_of (take number self.now.texts)) }
    {
        self.offsets[number as usize]
    }

    /// The bytes of the texts.
    pub fn bytes(&self) -> &[u8]
        ensures { result.now ≡ table_of self.now.texts }
    {
        &self.bytes
    }
}

// Appends the bytes of a text, and its offset.
fn append(
    base: u32,
    offsets: &mut Vec<u32>,
    bytes: &mut Vec<u8>,
    text: &[u8],
) -> Result<(), NoMemory>
    requires { base + length bytes.old.items < 2 ^ 32 }
    ensures offsets { OnOk result (offsets.new.items ≡ offsets.old.items ++ (base + length bytes.old.items) ∷ []) }
    ensures bytes { OnOk result (bytes.new.items ≡ bytes.old.items ++ with_nul text.now) }
{
    offsets.push(base + bytes.len() as u32)?;
    bytes.extend_from_slice(text)?;
    bytes.push(0)?;
    Ok(())
}

#[cfg(test)]
mod tests {
    use super::*;
    use std::test::Fail;

    // Each string occurs once, with its NUL, in the order of first use.
    #[test]
    fn strings_in_order(rt: HostRuntime) -> Result<(), Fail> {
        let mut texts = Texts::new(rt.alloc());
        let soname = texts.add(b"libz.so.1")?;
        let path = texts.add(b"/usr/lib/libz.so.1")?;
        let empty = texts.add(b"")?;
        let table = Table::of(rt.alloc(), texts, 72)?;
        assert_eq!(rt; table.offset(soname), 72);
        assert_eq!(rt; table.offset(path), 82);
        assert_eq!(rt; table.offset(empty), 101);
        assert!(rt; table.bytes() == b"libz.so.1\0/usr/lib/libz.so.1\0\0".as_slice());
        Ok(())
    }
}
