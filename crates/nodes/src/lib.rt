// Nodes compared: a word's byte and its map.
#![tactic(auto)]

ghost use Rattle.std.specs.Prelude.{◌≡◌, ◌≤◌, length};
ghost use Rattle.slices.specs.Equal.{Equal};
ghost use Rattle.nodes.specs.Same.{SameNodes, SharedFront};

// The bytes of 32 nodes, which are compared in one go.
const BLOCK: usize = 32 * maps::NODE;

// How many bytes of the nodes at the front of two slices are the same. Where a block is the same, the next ones are
// compared as blocks.
pub fn same_front(a: &[u8], b: &[u8]) -> usize
    ensures { SharedFront a.now b.now result }
{
    let most = a.len().min(b.len());
    let mut n: usize = 0;
    // Kept: a turn passes one node, or a node and the blocks behind it, so no iterator counts it, and the offset is the answer.
    while maps::NODE <= most - n {
        if a[n] != b[n] || a[n + 1] != b[n + 1] {
            return n;
        }
        n += maps::NODE;
        if n % BLOCK == 0 {
            n = same_blocks(a, b, n, most);
        }
    }
    n
}

// The same by blocks, where so many bytes are known to be the same.
fn same_blocks(a: &[u8], b: &[u8], known: usize, most: usize) -> usize
    requires same_nodes { SameNodes a.now b.now known }
    requires known_le_most { (known ≤ most) × (most ≤ length a.now) × (most ≤ length b.now) }
    ensures same_nodes_2 { SameNodes a.now b.now result }
    ensures lower_bound { (known ≤ result) × (result ≤ most) }
{
    let blocks = (most - known) / BLOCK;
    for block in 0..blocks {
        let n = known + block * BLOCK;
        if !slices::equal(&a[n..n + BLOCK], &b[n..n + BLOCK]) {
            return n;
        }
    }
    known + blocks * BLOCK
}

// Whether two slices have the same bytes. Most have one node.
pub fn equal(a: &[u8], b: &[u8]) -> bool
    ensures { Equal a.now b.now result }
{
    if a.len() != maps::NODE {
        return slices::equal(a, b);
    }
    b.len() == maps::NODE && a[0] == b[0] && a[1] == b[1]
}
