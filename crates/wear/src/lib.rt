// The wear of a chip in whole figures (request A14). It knows a list of wear and no store.
#![tactic(auto)]

ghost use Rattle.std.specs.Prelude.{◌≡◌, ◌≤◌, length};
ghost use Rattle.wear.specs.Figures.{measured};

// The total T, the largest L, and the spread: N times the sum of squares, minus T squared.
#[derive(Clone, Copy, PartialEq, Eq, Debug)]
pub struct Figures {
    pub total: u64,
    pub largest: u32,
    pub spread: u64,
}

// The figures of a list of wear, in one pass without a branch; none where an entry is above the limit. The sum of squares wraps, and has
// wrapped only where there is such an entry: 4,096 times 4,096 squares of 1,000,000 are below 2^64.
pub fn measure(wear: &[u32], limit: u32) -> Option<Figures>
    requires wear_len_bound { length wear.now ≤ 4096 }
    requires limit_bound { limit ≤ 1000000 }
    ensures { result ≡ measured wear.now limit }
{
    let mut total: u64 = 0;
    let mut squares: u64 = 0;
    let mut largest: u32 = 0;
    for x in wear {
        let w = u64::from(*x);
        total += w;
        squares = squares.wrapping_add(w * w);
        largest = largest.max(*x);
    }
    if largest > limit {
        return None;
    }
    let count = wear.len() as u64;
    Some(Figures {
        total,
        largest,
        spread: count * squares - total * total,
    })
}
