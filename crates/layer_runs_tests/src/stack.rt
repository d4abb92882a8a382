//! Stacks of layers, and devices in memory that hold them.
use command_runs_fixture::{Devices, Held, OLD, Setting, all, make_devices};
use command_status::Status;
use layer_runs::run_layers;
use lib_types::{Text, Texts};
use std::alloc::Global;
use std::test::Fail;

/// A layer: its key, and its manifest without the first line.
pub(crate) type Layer = (&'static str, &'static str);

/// An image without a manifest. No device fails.
pub(crate) const SURE: Setting<'static> = Setting {
    manifest: None,
    cache: Some(OLD),
    aux: None,
    store_fails: None,
    disk_fails: None,
    out_fails: None,
};

const LIBRARIES: &[Held<'static>] = &[
    Held::Library("a", "liba.so.1"),
    Held::Library("b", "libb.so.1"),
    Held::Library("z", "libz.so.1"),
];

/// A manifest of these lines.
pub(crate) fn text(alloc: Global, lines: &str) -> Result<Vec<u8>, Fail> {
    let mut text = Vec::from_slice(alloc, b"#mtree\n")?;
    text.extend_from_slice(lines.as_bytes())?;
    Ok(text)
}

/// Devices that hold the layers and the libraries. They fail as `setting` says.
pub(crate) fn devices_of(
    alloc: Global,
    layers: &[Layer],
    setting: Setting<'_>,
) -> Result<Devices, Fail> {
    let mut held = all(alloc, LIBRARIES)?;
    for (key, lines) in layers {
        held.push((
            Text::copy_of(alloc, key.as_bytes())?,
            Text::from_vec(text(alloc, lines)?),
        ))?;
    }
    Ok(make_devices(alloc, setting, held)?)
}

/// Runs `layers` with these keys.
pub(crate) fn run_keys(alloc: Global, keys: &Texts, devices: &mut Devices) -> Status {
    run_layers(
        alloc,
        keys,
        &mut devices.store,
        &mut devices.disk,
        &mut devices.out,
    )
}

/// Runs `layers` with the keys of these layers.
pub(crate) fn run(alloc: Global, layers: &[Layer], devices: &mut Devices) -> Result<Status, Fail> {
    let mut keys = Texts::new(alloc);
    for (key, _) in layers {
        keys.push(Text::copy_of(alloc, key.as_bytes())?)?;
    }
    Ok(run_keys(alloc, &keys, devices))
}
