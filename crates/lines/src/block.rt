// What a block is.
ghost use Rattle.std.specs.Prelude.{◌≡◌, suc, ◌*◌, ◌^◌, ◌<◌, length, ◌==◌};

// The numbers of `stride` interleaved lines: each line has degree + 1 of them, which lie `stride` apart. As a u8 the degree would be widened anew for each
// block. The part is lent beside it: as a field each contract would say that it is the same part still. No table has more numbers than a usize counts, so
// a block has no more: the product in `fits` does not overflow, and in a walk the compiler sees that it is the length of each part.
#[derive(Clone, Copy, Debug, PartialEq, Eq)]
pub struct Block {
    pub stride: usize,
    pub degree: usize,
    pub ghost some: { 0 < stride },
    pub ghost counted: { stride * suc degree < 2 ^ 64 },
}

impl Block {
    // Whether a part has as many numbers as the block.
    pub fn fits(self, part: &[u64]) -> bool
        ensures { result ≡ (length part.now == self.stride * suc self.degree) }
    {
        part.len() == self.stride * (self.degree + 1)
    }
}
