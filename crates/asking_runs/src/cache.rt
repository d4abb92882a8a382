//! The cache that a command reads.
ghost use Rattle.std.specs.Prelude.{◌≡◌};
ghost use Rattle.std.specs.Result.{result_map_both};
ghost use Rattle.asking_runs.specs.Cache.{cache_in};

use crate::fault::CacheFault;
use image_session::SlotFault;
use lib_types::Text;

/// The bytes of the cache, from what was read of its file.
pub(crate) fn cache_in(read: &Result<Option<Text>, SlotFault>) -> Result<&[u8], CacheFault>
    ensures { result_map_both (λ bytes. bytes.now) (λ fault. fault) result ≡ cache_in read.now }
{
    match read {
        Ok(Some(bytes)) => Ok(bytes.as_bytes()),
        Ok(None) => Err(CacheFault::NoCache),
        Err(fault) => Err(CacheFault::from(*fault)),
    }
}
