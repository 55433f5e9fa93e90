// Calls that are cut off after so many operations of the chip (request A12), for tests of what a power loss leaves: the call itself, told
// how many operations it may do, after which the record is lost and the blank one comes back. Each stands beside the call that it cuts off,
// since C has both, and its promise is another, `CutContract`; what they do is one function of shelving.
ghost use Rattle.model.specs.Calls as calls;
ghost use Rattle.model.specs.Shelf as model;
ghost use Rattle.model.specs.Shelf.{plainly};
ghost use Rattle.answer.specs.Carried.{buffers};
ghost use Rattle.store.specs.View.{lent};
ghost use Rattle.store.specs.PowerLoss.{CutContract};

use crate::Cache;
use address::PageNo;
use lent::Lent;

impl Cache {
    // Writing a page.
    pub fn cut_write(
        self,
        flash: &mut [u8],
        codes: &mut [u8],
        marks: &mut [u8],
        wear: &mut [u32],
        pspace: &mut [u8],
        bspace: &mut [u8],
        shelf: &mut [u8],
        n: PageNo,
        page: &[u8],
        ops: u32,
    ) -> Cache
        ensures { let u = lent flash.old codes.old marks.old
            wear.old pspace.old bspace.old shelf.old in
            let u' = buffers flash.new codes.new marks.new
            wear.new pspace.new bspace.new in
            CutContract self u ops (plainly (calls.write n.0 page.now)) result u' }
    {
        let mut cache = self;
        let mut lent = Lent {
            flash,
            codes,
            marks,
            wear,
            bspace,
        };
        let _answer = shelving::write(
            cache.sizes,
            &mut cache.entries,
            &mut cache.directory,
            &mut lent,
            pspace,
            shelf,
            n,
            page,
            ops,
        );
        Cache::blank()
    }

    // Writing part of a page.
    pub fn cut_part(
        self,
        flash: &mut [u8],
        codes: &mut [u8],
        marks: &mut [u8],
        wear: &mut [u32],
        pspace: &mut [u8],
        bspace: &mut [u8],
        shelf: &mut [u8],
        n: PageNo,
        first: u32,
        bytes: &[u8],
        page: &mut [u8],
        ops: u32,
    ) -> Cache
        ensures { let u = lent flash.old codes.old marks.old
            wear.old pspace.old bspace.old shelf.old in
            let u' = buffers flash.new codes.new marks.new
            wear.new pspace.new bspace.new in
            CutContract self u ops (plainly (calls.part n.0 first bytes.now page.old)) result u' }
    {
        let mut cache = self;
        let mut lent = Lent {
            flash,
            codes,
            marks,
            wear,
            bspace,
        };
        let _answer = shelving::part(
            cache.sizes,
            &mut cache.entries,
            &mut cache.directory,
            &mut lent,
            pspace,
            shelf,
            n,
            first,
            bytes,
            page,
            ops,
        );
        Cache::blank()
    }

    // Taking a write back.
    pub fn cut_take_back(
        self,
        flash: &mut [u8],
        codes: &mut [u8],
        marks: &mut [u8],
        wear: &mut [u32],
        pspace: &mut [u8],
        bspace: &mut [u8],
        shelf: &[u8],
        ops: u32,
    ) -> Cache
        ensures { let u = lent flash.old codes.old marks.old
            wear.old pspace.old bspace.old shelf.now in
            let u' = buffers flash.new codes.new marks.new
            wear.new pspace.new bspace.new in
            CutContract self u ops model.back result u' }
    {
        let mut cache = self;
        let mut lent = Lent {
            flash,
            codes,
            marks,
            wear,
            bspace,
        };
        let _answer = shelving::back::back(
            cache.sizes,
            &mut cache.entries,
            &mut cache.directory,
            &mut lent,
            pspace,
            shelf,
            ops,
        );
        Cache::blank()
    }

    // A flush step.
    pub fn cut_step(
        self,
        flash: &mut [u8],
        codes: &mut [u8],
        marks: &mut [u8],
        wear: &mut [u32],
        pspace: &[u8],
        bspace: &mut [u8],
        shelf: &[u8],
        ops: u32,
    ) -> Cache
        ensures { let u = lent flash.old codes.old marks.old
            wear.old pspace.now bspace.old shelf.now in
            let u' = buffers flash.new codes.new marks.new
            wear.new pspace.now bspace.new in
            CutContract self u ops (plainly calls.step) result u' }
    {
        let mut cache = self;
        let mut lent = Lent {
            flash,
            codes,
            marks,
            wear,
            bspace,
        };
        let _answer = shelving::step(
            cache.sizes,
            &cache.entries,
            &mut cache.directory,
            &mut lent,
            pspace,
            shelf,
            ops,
        );
        Cache::blank()
    }

    // A flush.
    pub fn cut_flush(
        self,
        flash: &mut [u8],
        codes: &mut [u8],
        marks: &mut [u8],
        wear: &mut [u32],
        pspace: &[u8],
        bspace: &mut [u8],
        shelf: &[u8],
        ops: u32,
    ) -> Cache
        ensures { let u = lent flash.old codes.old marks.old
            wear.old pspace.now bspace.old shelf.now in
            let u' = buffers flash.new codes.new marks.new
            wear.new pspace.now bspace.new in
            CutContract self u ops (plainly calls.flush) result u' }
    {
        let mut cache = self;
        let mut lent = Lent {
            flash,
            codes,
            marks,
            wear,
            bspace,
        };
        let _answer = shelving::flush(
            cache.sizes,
            &cache.entries,
            &mut cache.directory,
            &mut lent,
            pspace,
            shelf,
            ops,
        );
        Cache::blank()
    }
}
