//! Specs of ELF files, and the files that are generated from them.
ghost use Rattle.std.specs.Prelude.{◌≡◌, ◌↔◌, ◌<◌, false, length, IfOk, IsErrOf};
ghost use Rattle.elf_maker.specs.declared.layout.TheConstants.{FILE_MAX};
ghost use Rattle.elf_maker.specs.Made.{is_spec, made};
ghost use Rattle.elf_samples.specs.Samples.{library};

use crate::SampleFault;
use elf_dynamic::kinds::Dynamic;
use elf_maker::{Spec, is_spec, make};
use lib_types::{Abi, NoMemory, Text, Texts};
use std::alloc::Global;

/// A list of these texts.
pub fn texts(alloc: Global, all: &[&str]) -> Result<Texts, NoMemory> {
    let mut list = Texts::new(alloc);
    for text in all {
        list.push(Text::copy_of(alloc, text.as_bytes())?)?;
    }
    Ok(list)
}

/// A shared object that has only this soname.
pub fn library(alloc: Global, abi: Abi, soname: &[u8]) -> Result<Spec, NoMemory>
    ensures { IfOk result (λ spec. spec ≡ library abi soname.now) }
{
    Ok(Spec {
        abi,
        etype: 3,
        dynamic: Dynamic {
            soname: Some(Text::copy_of(alloc, soname)?),
            needed: Texts::new(alloc),
            rpath: None,
            runpath: None,
            nodeflib: false,
        },
    })
}

/// A file with all parts of a dynamic section.
pub fn full(alloc: Global, abi: Abi, etype: u16) -> Result<Spec, NoMemory>
    ensures abi { IfOk result (λ spec. spec.abi ≡ abi) }
    ensures etype { IfOk result (λ spec. spec.etype ≡ etype) }
{
    Ok(Spec {
        abi,
        etype,
        dynamic: Dynamic {
            soname: Some(Text::copy_of(alloc, b"libfull.so.2")?),
            needed: texts(alloc, &["libc.so.6", "libm.so.6"])?,
            rpath: Some(Text::copy_of(alloc, b"/r")?),
            runpath: Some(Text::copy_of(alloc, b"/run")?),
            nodeflib: true,
        },
    })
}

/// A shared object that needs these libraries.
pub fn needing(abi: Abi, needed: Texts) -> Spec
    ensures abi { result.abi ≡ abi }
    ensures needed { result.dynamic.needed ≡ needed }
{
    Spec {
        abi,
        etype: 3,
        dynamic: Dynamic {
            soname: None,
            needed,
            rpath: None,
            runpath: None,
            nodeflib: false,
        },
    }
}

/// The file that is generated from this spec.
pub fn file_of(alloc: Global, spec: &Spec) -> Result<Vec<u8>, SampleFault>
    ensures bytes { IfOk result (λ bytes. bytes.items ≡ made spec.now) }
    ensures no_spec { IsErrOf result SampleFault.NoSpec ↔ (is_spec spec.now ≡ false) }
    ensures too_long { IsErrOf result SampleFault.TooLong → FILE_MAX < length (made spec.now) }
{
    if !is_spec(spec) {
        return Err(SampleFault::NoSpec);
    }
    Ok(make(alloc, spec)?)
}

/// The file of a shared object that has only this soname.
pub fn library_file(alloc: Global, abi: Abi, soname: &[u8]) -> Result<Vec<u8>, SampleFault>
    ensures bytes { IfOk result (λ bytes. bytes.items ≡ made (library abi soname.now)) }
    ensures no_spec { IsErrOf result SampleFault.NoSpec → is_spec (library abi soname.now) ≡ false }
{
    let spec = library(alloc, abi, soname)?;
    file_of(alloc, &spec)
}
