ghost use Rattle.std.specs.Prelude.{◌≡◌};
ghost use Rattle.model.specs.Directory.{blank_cache};
ghost use Rattle.model.specs.Shelf.{no_entries};
ghost use Rattle.answer.specs.Numbers.{refusal_of};
ghost use Rattle.store.specs.View.{cache_of, opened_of, lent};
ghost use Rattle.store.specs.Histories.{OpeningContract};

use crate::{Cache, Opened};
use answer::{Opening, Refusal};
use cache::{Directory, Sizes, VACANT};
use lent::LentView;

impl Cache {
    // The record before any opening: every call on it is refused.
    #[tactic(auto, unfolding(model::specs::Directory::blank_cache))]
    pub fn blank() -> Cache
        ensures { (cache_of result ≡ blank_cache) × (result.entries ≡ no_entries) }
    {
        Cache {
            sizes: Sizes::blank(),
            entries: [VACANT; 8],
            directory: Directory::vacant(),
        }
    }

    // Opens a store of these sizes on the buffers lent: checks the sizes, the buffers' lengths and the wear, and counts the torn blocks.
    pub fn open(
        sizes: Sizes,
        flash: &[u8],
        codes: &[u8],
        marks: &[u8],
        wear: &[u32],
        pspace: &[u8],
        bspace: &[u8],
        shelf: &[u8],
    ) -> Opened
        ensures { let u = lent flash.now codes.now marks.now
            wear.now pspace.now bspace.now shelf.now in
            OpeningContract sizes u result }
    {
        if !sizes.ok() {
            return refused(Refusal::Size);
        }
        let lent = LentView {
            flash,
            codes,
            marks,
            wear,
            pspace,
            bspace,
        };
        if !lent.fits(sizes) {
            return refused(Refusal::Buffer);
        }
        let long = sizes.shelf_pages as usize * sizes.page_size as usize;
        if shelf.len() != long {
            return refused(Refusal::Buffer);
        }
        if !lent::wear_ok(wear, sizes.wear_limit) {
            return refused(Refusal::Overworn);
        }
        let torn = chip::torn::count(sizes, marks);
        Opened {
            cache: Cache {
                sizes,
                entries: [VACANT; 8],
                directory: Directory::vacant(),
            },
            answer: Ok(Opening { torn }),
        }
    }
}

// A refused opening, with the blank record.
fn refused(why: Refusal) -> Opened
    ensures { opened_of result ≡ record { answer = refusal_of why; torn = 0; cache = blank_cache; entries = no_entries } }
{
    Opened {
        cache: Cache::blank(),
        answer: Err(why),
    }
}
