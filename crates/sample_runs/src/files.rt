//! The libraries of a sample.
ghost use Rattle.std.specs.Prelude.{◌≡◌, IfOk};
ghost use Rattle.sample_runs.specs.Files.{content, hwcaps_path, key, library_path, next, sample_files, shared_object, soname};

use crate::numbers::put_number;
use elf_dynamic::kinds::Dynamic;
use elf_maker::{Spec, is_spec, make};
use lib_types::{Abi, NoMemory, Text, Texts};
use std::alloc::Global;

/// A library of a sample: which one it is, and the numbers of its version.
#[derive(Clone, Copy, Debug, PartialEq, Eq)]
pub struct SampleFile {
    pub index: u32,
    pub major: u32,
    pub minor: u32,
}

// The state of the generator after one more draw.
fn next(state: u32) -> u32
    ensures { result ≡ next state }
{
    ((u64::from(state) * 1_103_515_245 + 12_345) % (1 << 31)) as u32
}

/// The libraries of a sample of `n`.
pub(crate) fn sample_files(alloc: Global, n: u16) -> Result<Vec<SampleFile>, NoMemory>
    ensures { IfOk result (λ files. files.items ≡ sample_files n) }
{
    let mut files = Vec::new(alloc);
    let mut state = u32::from(n);
    for index in 0..u32::from(n) {
        let first = next(state);
        let second = next(first);
        files.push(SampleFile {
            index,
            major: first / 65_536 % 20,
            minor: second / 65_536 % 4,
        })?;
        state = second;
    }
    Ok(files)
}

/// The soname of a library.
pub(crate) fn soname(alloc: Global, file: SampleFile) -> Result<Text, NoMemory>
    ensures { IfOk result (λ name. name ≡ soname file) }
{
    let mut name = Vec::new(alloc);
    put_number(alloc, &mut name, b"libs", u64::from(file.index))?;
    put_number(alloc, &mut name, b".so.", u64::from(file.major))?;
    Ok(Text::from_vec(name))
}

/// The path of a library's file with this minor number.
pub(crate) fn library_path(alloc: Global, file: SampleFile, minor: u64) -> Result<Text, NoMemory>
    ensures { IfOk result (λ path. path ≡ library_path file minor) }
{
    let mut path = Vec::new(alloc);
    put_number(alloc, &mut path, b"/usr/lib/libs", u64::from(file.index))?;
    put_number(alloc, &mut path, b".so.", u64::from(file.major))?;
    put_number(alloc, &mut path, b".", minor)?;
    Ok(Text::from_vec(path))
}

/// The path of a library's file for processors of x86-64-v3.
pub(crate) fn hwcaps_path(alloc: Global, file: SampleFile) -> Result<Text, NoMemory>
    ensures { IfOk result (λ path. path ≡ hwcaps_path file) }
{
    let folder = b"/usr/lib/glibc-hwcaps/x86-64-v3/libs";
    let mut path = Vec::new(alloc);
    put_number(alloc, &mut path, folder, u64::from(file.index))?;
    put_number(alloc, &mut path, b".so.", u64::from(file.major))?;
    put_number(alloc, &mut path, b".", u64::from(file.minor))?;
    Ok(Text::from_vec(path))
}

/// The key of a library's content.
pub(crate) fn key(alloc: Global, file: SampleFile) -> Result<Text, NoMemory>
    ensures { IfOk result (λ text. text ≡ key file) }
{
    let mut key = Vec::new(alloc);
    put_number(alloc, &mut key, b"s", u64::from(file.index))?;
    Ok(Text::from_vec(key))
}

// The ELF information of a library's file: a shared object with this soname.
fn shared_object(alloc: Global, soname: Text) -> Spec
    ensures { result ≡ shared_object soname }
{
    Spec {
        abi: Abi::X86_64,
        etype: 3,
        dynamic: Dynamic {
            soname: Some(soname),
            needed: Texts::new(alloc),
            rpath: None,
            runpath: None,
            nodeflib: false,
        },
    }
}

/// The content of a library's file.
#[tactic(auto, unfolding(crate::specs::Files::content))]
pub(crate) fn content(alloc: Global, file: SampleFile) -> Result<Vec<u8>, NoMemory>
    ensures { IfOk result (λ bytes. bytes.items ≡ content file) }
{
    let spec = shared_object(alloc, soname(alloc, file)?);
    // Each soname is a name, and each file is short.
    if !is_spec(&spec) {
        return Err(NoMemory);
    }
    match make(alloc, &spec) {
        Ok(bytes) => Ok(bytes),
        Err(_) => Err(NoMemory),
    }
}
