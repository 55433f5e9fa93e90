// Calls that are refused for their entries and shelf (request A8).
ghost use Rattle.cache.specs.View.{directory_of};
ghost use Rattle.shelving.specs.Shelving.{Fitting};

use answer::Refusal;
use cache::{Directory, Sizes};

// The first check of each call: the entries, and a shelf of so many bytes, are as the sizes ask. Only where they are not is the record
// tested here, to tell why.
pub(crate) fn fitting(
    z: Sizes,
    entries: &[u32; 8],
    directory: &Directory,
    long: usize,
) -> Result<(), Refusal>
    ensures { Fitting z (directory_of directory.now) entries.now long result }
{
    if shelf::fitting(z, entries, long) {
        return Ok(());
    }
    let sound = sound::directory_sound(z, directory);
    if sound & shelf::sound(z, entries) {
        return Err(Refusal::Buffer);
    }
    Err(Refusal::Record)
}
