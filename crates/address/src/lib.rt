// Page and block numbers, and the only way from one to the other: page n lies in block n div k at offset n mod k.
#![tactic(auto)]

pub mod range; // range.rt: the block of a page without a division

ghost use Rattle.std.specs.Prelude.{◌≡◌, ◌<◌, ◌+◌, ◌*◌, ◌^◌};
ghost use Rattle.address.specs.Address.{block_of, offset_of, page_of};

// The number of a page.
#[repr(C)]
#[derive(Clone, Copy, PartialEq, Eq, PartialOrd, Ord, Debug)]
pub struct PageNo(pub u32);

// The number of a block.
#[repr(C)]
#[derive(Clone, Copy, PartialEq, Eq, PartialOrd, Ord, Debug)]
pub struct BlockNo(pub u32);

// The block of page n.
pub fn block_of(n: PageNo, k: u32) -> BlockNo
    requires { 0 < k }
    ensures { result ≡ block_of n k }
{
    BlockNo(n.0 / k)
}

// The offset of page n in its block.
pub fn offset_of(n: PageNo, k: u32) -> u32
    requires { 0 < k }
    ensures { result ≡ offset_of n k }
{
    n.0 % k
}

// The page at offset o of block b.
pub fn page_of(b: BlockNo, o: u32, k: u32) -> PageNo
    requires { b.0 * k + o < 2 ^ 32 }
    ensures { result ≡ page_of b o k }
{
    PageNo(b.0 * k + o)
}
