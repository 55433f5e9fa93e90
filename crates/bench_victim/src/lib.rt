// The victim search for a C or Rust program to call and measure.
#![tactic(auto)]

ghost use Rattle.std.specs.Prelude.{◌≡◌};
ghost use Rattle.model.specs.Soundness.{Sound};
ghost use Rattle.cache.specs.View.{sizes_of, directory_of};
ghost use Rattle.policy.specs.Views.{victim_of};

use cache::{Directory, Sizes};
use policy::decision::Victim;

// The numbers of a cache record, as bench_sound has them.
#[repr(C)]
#[derive(Clone, Copy, PartialEq, Eq, Debug)]
pub struct Record {
    pub sizes: Sizes,
    pub directory: Directory,
}

// The block with the most pages in slots, and how many. The record must be sound.
#[tactic(auto, using(policy::proofs::Asks::slots_of))]
#[unsafe(no_mangle)]
pub extern "C" fn record_victim(r: Record) -> Victim
    requires { Sound (sizes_of r.sizes) (directory_of r.directory) }
    ensures { result ≡ victim_of (sizes_of r.sizes) (directory_of r.directory) }
{
    policy::victim::victim(r.sizes, &r.directory)
}
