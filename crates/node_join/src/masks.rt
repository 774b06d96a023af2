ghost use Rattle.std.specs.Prelude.{◌≡◌};
ghost use Rattle.machine.specs.EpochRead.{leaves_none_bare, open_mask};

use region_view::{Shape, bare_region, epoch_of};

/// Whether each region has a replica in the mask.
pub fn leaves_none_bare(shape: &Shape, mask: u8) -> bool
    ensures { result ≡ leaves_none_bare shape.now mask }
{
    // The sizes are read, so that they are known to be within their limits.
    prove!(shape.regions <= 63);
    match bare_region(shape, mask) {
        Some(_) => false,
        None => true,
    }
}

/// The mask that an epoch word opens; `None` where the word is sealed, says no epoch, or leaves a
/// region without a replica.
#[tactic(auto, unfolding(machine::specs::EpochRead::open_mask))]
pub fn open_mask(shape: &Shape, word: u64) -> Option<u8>
    ensures { result ≡ open_mask shape.now word }
{
    let epoch = epoch_of(word)?;
    if !epoch.sealed && leaves_none_bare(shape, epoch.mask) {
        Some(epoch.mask)
    } else {
        None
    }
}
