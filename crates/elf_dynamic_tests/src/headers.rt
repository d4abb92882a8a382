// The program headers of synthetic libraries.
use super::rows::libz;
use elf_headers::kinds::Segment;
use elf_headers::{head, segment};
use lib_types::{Abi, Text};
use std::alloc::Global;
use std::test::Fail;
use tree_face::SureStore;

// PT_LOAD and PT_DYNAMIC in the maker's layout: the kind, the offset, the address, and the length in the file.
const ROWS: &[(Abi, [u64; 4], [u64; 4])] = &[
    (Abi::X86_64, [1, 0, 0x1000, 251], [2, 176, 0x10b0, 64]),
    (Abi::I386, [1, 0, 0x1000, 159], [2, 116, 0x1074, 32]),
];

fn numbers(s: Segment) -> [u64; 4] {
    [u64::from(s.kind), s.offset, s.vaddr, s.filesz]
}

fn store_of(alloc: Global, abi: Abi) -> Result<SureStore, Fail> {
    let mut held = Vec::new(alloc);
    let content = Text::from_vec(libz(alloc, abi)?);
    held.push((Text::copy_of(alloc, b"key")?, content))?;
    Ok(SureStore::new(held))
}

// Whether the library has these two program headers.
fn has_segments(alloc: Global, abi: Abi, load: [u64; 4], dynamic: [u64; 4]) -> Result<bool, Fail> {
    let mut store = store_of(alloc, abi)?;
    let head = head(&mut store, b"key")?;
    if head.phnum != 2 {
        return Ok(false);
    }
    let first = segment(&mut store, &head, 0)?;
    let second = segment(&mut store, &head, 1)?;
    Ok(numbers(first) == load && numbers(second) == dynamic)
}

#[test]
fn each_program_header_is_read_by_its_index(rt: HostRuntime) -> Result<(), Fail> {
    for (abi, load, dynamic) in ROWS {
        assert!(rt; has_segments(rt.alloc(), *abi, *load, *dynamic)?);
    }
    Ok(())
}
