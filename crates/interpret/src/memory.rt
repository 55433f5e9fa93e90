// The store's own buffers: the first parts of the program's memory.
ghost use Rattle.cache.specs.View.{sizes_of};
ghost use Rattle.interpret.specs.View.{Held, PartsOf};

use cache::Sizes;

// The lengths of the four buffers and of the page buffer. rehearsal has its own, and says why.
#[derive(Clone, Copy, PartialEq, Eq, Debug)]
pub struct Parts {
    pub flash: usize,
    pub wear: usize,
    pub pspace: usize,
    pub bspace: usize,
    pub page: usize,
}

// The lengths that sizes ask for.
pub fn lengths(z: Sizes) -> Parts
    requires { Held (sizes_of z) }
    ensures { PartsOf (sizes_of z) result }
{
    let s = z.page_size as usize;
    let k = z.pages_per_block as usize;
    let n = z.blocks as usize;
    let p = z.slots as usize;
    let b = z.frames as usize;
    Parts {
        flash: n * k * s,
        wear: n,
        pspace: p * s,
        bspace: b * k * s,
        page: s,
    }
}
