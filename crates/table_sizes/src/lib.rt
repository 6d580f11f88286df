// Code 2: the sizes of packs that are split, of packs and trees that are joined, of images.
#![tactic(auto)]

ghost use Rattle.table_sizes.specs.ToSplit.{SplitSizes};
ghost use Rattle.table_sizes.specs.ToJoin.{JoinSizes};
ghost use Rattle.table_sizes.specs.ToCheck.{ImageSize};

use meaning::{FEWEST_BLOCKS, MOST_BITS, MOST_BLOCKS, MOST_NODES, MOST_TREES};

// Is the number of bytes, bits or trees of a pack that is to be split wrong?
pub fn split_sizes_wrong(bytes: usize, bits: usize, trees: usize) -> bool
    ensures { SplitSizes result bytes bits trees }
{
    if MOST_BITS < bits {
        return true;
    }
    if bytes != (bits + 7) / 8 {
        return true;
    }
    if MOST_TREES < trees {
        return true;
    }
    false
}

// Is the number of bytes, earlier bits or trees of a pack, or of nodes of a tree that is to be
// joined to it, wrong?
pub fn join_sizes_wrong(bytes: usize, earlier: usize, trees: usize, nodes: usize) -> bool
    ensures { JoinSizes result bytes earlier trees nodes }
{
    if nodes < 1 {
        return true;
    }
    if MOST_NODES < nodes {
        return true;
    }
    if MOST_BITS < earlier {
        return true;
    }
    if bytes < (earlier + 7) / 8 {
        return true;
    }
    if MOST_TREES - 1 < trees {
        return true;
    }
    let longer = earlier + (2 * nodes + 1);
    if MOST_BITS < longer {
        return true;
    }
    false
}

// Is the number of bytes of an image wrong?
pub fn image_size_wrong(bytes: usize) -> bool
    ensures { ImageSize result bytes }
{
    if bytes % 512 != 0 {
        return true;
    }
    if bytes / 512 < FEWEST_BLOCKS {
        return true;
    }
    if MOST_BLOCKS < bytes / 512 {
        return true;
    }
    false
}
