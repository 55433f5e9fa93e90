// The figures of a list of wear for a C or Rust program to call and measure.
#![tactic(auto)]

ghost use Rattle.std.specs.Prelude.{◌≡◌, ◌≤◌, length};
ghost use Rattle.wear.specs.Figures.{measured};
ghost use Rattle.bench_wear.specs.Plainly.{plainly};

// The figures, with 1 for an accepted report and 0 for one that is refused: a number, since C calls it.
#[repr(C)]
#[derive(Clone, Copy, PartialEq, Eq, Debug)]
pub struct Figures {
    pub accepted: u32,
    pub largest: u32,
    pub total: u64,
    pub spread: u64,
}

// The figures of at most 4,096 entries, with a limit of at most 1,000,000.
#[unsafe(no_mangle)]
pub extern "C" fn wear_figures(wear: &[u32], limit: u32) -> Figures
    requires wear_len_bound { length wear.now ≤ 4096 }
    requires limit_bound { limit ≤ 1000000 }
    ensures { result ≡ plainly (measured wear.now limit) }
{
    match wear::measure(wear, limit) {
        Some(f) => Figures {
            accepted: 1,
            largest: f.largest,
            total: f.total,
            spread: f.spread,
        },
        None => Figures {
            accepted: 0,
            largest: 0,
            total: 0,
            spread: 0,
        },
    }
}
