// The layout of an image: which blocks hold what, by its version and the numbers of its nodes and
// runs.
#![tactic(auto)]

ghost use Rattle.std.specs.Prelude.{◌≡◌, ◌+◌, ◌*◌, ◌-◌, ◌/◌, ◌≤◌, min};
ghost use Rattle.meaning.specs.Image.{string_blocks};
ghost use Rattle.theory.specs.Bounds.{most_block};
ghost use Rattle.theory.specs.Layout.{sample_place};
ghost use Rattle.theory.specs.Stages.{word_blocks, samples_of, blocks_of_samples, metres_held};
ghost use Rattle.image_layout.specs.Layout.{metres_at, layout_of};

use meaning::WITH_METRES;

// The nodes and runs of an image, the blocks at which R0, the samples of R1, those of R0 and the
// metres begin, if it has any, and the number of its blocks. The header is block 0, and R1 begins
// at block 1. No metres are not 0 metres.
#[derive(Clone, Copy)]
pub struct Layout {
    pub nodes: u32,
    pub runs: u32,
    pub r0_block: u32,
    pub r1_samples: u32,
    pub r0_samples: u32,
    pub metres: Option<u32>,
    pub blocks: u32,
}

// How many blocks a string of n bits takes.
pub fn string_blocks(n: usize) -> usize
    requires { n ≤ 65536 }
    ensures { result ≡ string_blocks n }
{
    (n + 3999) / 4000
}

// A block's words but for its sums.
pub const PAYLOAD_WORDS: usize = 126;

// How many of the numbers that are left of a list its next block holds.
pub fn in_block(left: usize) -> usize
    ensures { result ≡ min left 126 }
{
    if left < PAYLOAD_WORDS {
        return left;
    }
    PAYLOAD_WORDS
}

// How many blocks a list of k numbers takes, a word each: samples and metres alike.
pub fn list_blocks(k: usize) -> usize
    requires { k ≤ 65535 }
    ensures { result ≡ word_blocks k }
{
    (k + 125) / 126
}

// How many samples m ones have.
pub fn samples_of(m: usize) -> usize
    requires { m ≤ 65536 }
    ensures { result ≡ samples_of m }
{
    (m + 63) / 64
}

// How many blocks the samples of m ones take.
pub fn sample_blocks(m: usize) -> usize
    requires { m ≤ 65535 }
    ensures { result ≡ blocks_of_samples m }
{
    list_blocks(samples_of(m))
}

// The first byte of sample number s, from 0, of samples whose blocks begin at block `samples`.
pub fn sample_at(samples: usize, s: usize) -> usize
    requires samples_le_most_block { samples ≤ most_block }
    requires s_bound { s ≤ 126 * most_block }
    ensures { result ≡ sample_place samples s }
{
    512 * (samples + s / 126) + 4 * (s % 126)
}

// The first byte of the bits that a block of a string holds, after its word for the earlier ones.
pub fn bits_at(block: usize) -> usize
    requires { block ≤ most_block + most_block }
    ensures { result ≡ 512 * block + 4 }
{
    512 * block + 4
}

// Which block of a string of n bits is the last, from 0.
pub fn last_block(n: usize) -> usize
    requires { 1 ≤ n }
    ensures { result ≡ (n - 1) / 4000 }
{
    (n - 1) / 4000
}

// How many numbers of metres an image of n nodes has, by its version.
fn metres_held(version: u32, n: usize) -> usize
    ensures { result ≡ metres_held version n }
{
    if version == WITH_METRES {
        return n;
    }
    0
}

// Where the metres begin, by the version: at the block after all others, or nowhere.
fn metres_at(version: u32, block: u32) -> Option<u32>
    ensures { result ≡ metres_at version block }
{
    if version == WITH_METRES {
        return Some(block);
    }
    None
}

// The layout of an image of n nodes with m runs: the header, the two strings, their samples, and in
// version 2 the metres.
pub fn layout_of(version: u32, n: usize, m: usize) -> Layout
    requires n_bound { n ≤ 65535 }
    requires m_bound { m ≤ 65535 }
    ensures { result ≡ layout_of version n m }
{
    let r0_block = 1 + string_blocks(n);
    let r1_samples = r0_block + string_blocks(n + 1);
    let each = sample_blocks(m);
    let after = r1_samples + 2 * each;
    Layout {
        nodes: n as u32,
        runs: m as u32,
        r0_block: r0_block as u32,
        r1_samples: r1_samples as u32,
        r0_samples: (r1_samples + each) as u32,
        metres: metres_at(version, after as u32),
        blocks: (after + list_blocks(metres_held(version, n))) as u32,
    }
}
