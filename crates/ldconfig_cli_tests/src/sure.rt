//! An update over devices that never fail.
use command_runs_fixture::{
    LIBZ_MANIFEST, LIBZ_REPORT, NO_STAMPS, ONE_CACHE, copy, has, libz_held,
};
use command_status::Status;
use ldconfig_cli::run;
use std::alloc::Global;
use std::test::Fail;
use tree_face::{Slot, SureDisk, SureSink, SureSource, SureStore};

// Updates the example over devices that never fail.
fn update_surely(alloc: Global, disk: &mut SureDisk, out: &mut SureSink) -> Result<Status, Fail> {
    let mut words = Vec::new(alloc);
    words.push(String::from_str(alloc, "update")?)?;
    let mut store = SureStore::new(libz_held(alloc)?);
    let mut input = SureSource::new(Vec::new(alloc));
    Ok(run(alloc, &words, &mut store, disk, &mut input, out))
}

fn disk_of(alloc: Global, manifest: &[u8]) -> Result<SureDisk, Fail> {
    Ok(SureDisk::new(alloc, copy(alloc, Some(manifest))?, None, None))
}

#[test]
fn devices_that_never_fail(rt: HostRuntime) -> Result<(), Fail> {
    let alloc = rt.alloc();
    let mut disk = disk_of(alloc, LIBZ_MANIFEST)?;
    let mut out = SureSink::new(alloc);
    let status = update_surely(alloc, &mut disk, &mut out)?;
    assert!(rt; status == Status::Done);
    assert!(rt; out.written() == LIBZ_REPORT);
    assert!(rt; has(alloc, &mut disk, Slot::Cache, Some(ONE_CACHE)));
    assert!(rt; has(alloc, &mut disk, Slot::Aux, Some(NO_STAMPS)));
    Ok(())
}
