//! The most layers, the longest key, and a manifest that is too long.
use crate::stack::{SURE, devices_of, run_keys, text};
use command_runs_fixture::{Devices, make_devices};
use command_status::{LayerKind, Status};
use lib_types::{Text, Texts};
use mtree_manifest::ManifestFault;
use std::alloc::Global;
use std::process::Abort;
use std::test::Fail;

const PUT: &str = "./usr/lib/libz.so.1 type=file contents=z\n";

const WHITEOUT: &str = "./usr/lib/.wh.libz.so.1 type=file\n";

const PUT_AND_WHITEOUT: &[(&str, &str)] = &[("put", PUT), ("whiteout", WHITEOUT)];

// Keys of layers of which one puts the library, the next one removes it, and so on.
fn by_turns(alloc: Global, count: usize) -> Result<Texts, Fail> {
    let mut keys = Texts::new(alloc);
    for layer in 0..count {
        let (key, _) = PUT_AND_WHITEOUT[layer % 2];
        keys.push(Text::copy_of(alloc, key.as_bytes())?)?;
    }
    Ok(keys)
}

#[test]
fn sixty_four_layers(rt: HostRuntime) -> Result<(), Fail> {
    let alloc = rt.alloc();
    let rows: [(usize, &[u8]); 3] = [
        (62, b"0 libs, 0 links, 0 files opened\n"),
        (63, b"1 libs, 0 links, 1 files opened\n"),
        (64, b"0 libs, 0 links, 0 files opened\n"),
    ];
    for (count, out) in rows {
        let mut devices = devices_of(alloc, PUT_AND_WHITEOUT, SURE)?;
        let keys = by_turns(alloc, count)?;
        let status = run_keys(alloc, &keys, &mut devices);
        assert!(rt; status == Status::Done, "{count}");
        assert!(rt; devices.out.written() == out, "{count}");
    }
    Ok(())
}

// Devices with one file, and the list of its key.
fn one_file(alloc: Global, key: &[u8], content: Vec<u8>) -> Result<(Devices, Texts), Fail> {
    let mut held = Vec::new(alloc);
    held.push((Text::copy_of(alloc, key)?, Text::from_vec(content)))?;
    let mut keys = Texts::new(alloc);
    keys.push(Text::copy_of(alloc, key)?)?;
    Ok((make_devices(alloc, SURE, held)?, keys))
}

#[test]
fn a_key_of_4095_bytes(rt: HostRuntime) -> Result<(), Fail> {
    let alloc = rt.alloc();
    let key = vec![in alloc; b'k'; 4095]?;
    let (mut devices, keys) = one_file(alloc, &key, text(alloc, "./etc type=dir\n")?)?;
    assert!(rt; run_keys(alloc, &keys, &mut devices) == Status::Done);
    assert!(rt; devices.out.written() == b"0 libs, 0 links, 0 files opened\n".as_slice());
    Ok(())
}

// One byte more than a manifest may have. It isn't read.
const TOO_LONG: usize = 67_108_865;

#[test]
fn a_manifest_that_is_too_long(rt: HostRuntime) -> Result<(), Fail> {
    let alloc = rt.alloc();
    let (mut devices, keys) = one_file(alloc, b"base", vec![in alloc; b'#'; TOO_LONG]?)?;
    let status = run_keys(alloc, &keys, &mut devices);
    let kind = LayerKind::Manifest(ManifestFault::TooLong {
        length: TOO_LONG as u64,
    });
    assert!(rt; status == Status::BadLayer { layer: 0, kind });
    assert!(rt; devices.out.written() == b"fault: BadLayer 0: Manifest\n".as_slice());
    Ok(())
}
