// How far a pattern and a situation are the same, by their bytes alone, which may be any. A byte from 128 on is no word.
#![tactic(auto)]

ghost use Rattle.std.specs.Prelude.{◌≡◌, true, ◌+◌, ◌≤◌, length};
ghost use Rattle.wire.specs.Map.{map_bytes};
ghost use Rattle.runs.specs.Alike.{Alike};
ghost use Rattle.runs.specs.Shared.{SharedNode, SharedBlock, SharedWords};

// Whether a word stands at the root of a pattern, and a situation is of its kind; both are as long as a term can be.
pub fn alike(p: &[u8], s: &[u8]) -> bool
    ensures { result ≡ true → Alike p.now s.now }
{
    matches!(p.len(), 2..=4096) && matches!(s.len(), 2..=4096) && p[1] < 128 && p[0] == s[0]
}

// The bytes of 32 nodes.
const BLOCK: usize = 32 * maps::NODE;

// Whether the same word stands in both, with the same map.
fn same_node(a: &[u8], b: &[u8], i: usize, j: usize) -> bool
    requires { (i + (1 + map_bytes) ≤ length a.now) × (j + (1 + map_bytes) ≤ length b.now) }
    ensures { result ≡ true → SharedNode a.now b.now i j }
{
    a[i] < 128 && u16::from_le_bytes([a[i], a[i + 1]]) == u16::from_le_bytes([b[j], b[j + 1]])
}

// Whether a block of the same words with the same maps stands in both.
fn same_block(a: &[u8], b: &[u8], i: usize, j: usize) -> bool
    requires { (i + 64 ≤ length a.now) × (j + 64 ≤ length b.now) }
    ensures { result ≡ true → SharedBlock a.now b.now i j 64 }
{
    let mut gathered: u8 = 0;
    for k in 0..BLOCK {
        let byte = a[i + k];
        // The bit that no word's byte has, at the even offsets, where words stand.
        let mark = if k % 2 == 0 { 128 } else { 0 };
        gathered |= (byte ^ b[j + k]) | (byte & mark);
    }
    gathered == 0
}

// How many bytes of words two slices share from two offsets on, word by word and at most a block.
pub fn words(a: &[u8], b: &[u8], i: usize, j: usize) -> usize
    ensures { SharedWords a.now b.now i j result }
{
    let most = a
        .len()
        .saturating_sub(i)
        .min(b.len().saturating_sub(j))
        .min(BLOCK);
    let nodes = most / maps::NODE;
    for node in 0..nodes {
        let n = node * maps::NODE;
        if !same_node(a, b, i + n, j + n) {
            return n;
        }
    }
    nodes * maps::NODE
}

// How many bytes of words two slices share from two offsets on: one word, and the blocks behind it.
pub fn run(a: &[u8], b: &[u8], i: usize, j: usize) -> usize
    ensures { SharedWords a.now b.now i j result }
{
    let most = a.len().saturating_sub(i).min(b.len().saturating_sub(j));
    if most < maps::NODE || !same_node(a, b, i, j) {
        return 0;
    }
    let blocks = (most - maps::NODE) / BLOCK;
    for block in 0..blocks {
        let n = maps::NODE + block * BLOCK;
        if !same_block(a, b, i + n, j + n) {
            return n;
        }
    }
    maps::NODE + blocks * BLOCK
}
