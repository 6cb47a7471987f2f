// The tail test: how far two byte strings agree from the back, on the lent bytes where they lie. It goes by blocks of 32 bytes,
// then by blocks of 8 inside the one that differs, then byte by byte. A block has no early exit: so the compiler makes of 32
// bytes the comparison of two vectors, and of 8 that of a word.
ghost use Rattle.std.specs.Prelude.{◌≡◌, true, false, ◌+◌, ◌-◌, ◌≤◌, ◌<◌, min, length};
ghost use Rattle.string_heap.specs.Tails.{agree, is_tail};
ghost use Rattle.string_heap.specs.Same.{SameFrom, SameBack};

// Are the `size` bytes of a from i on and those of b from j on the same?
fn same_block(a: &[u8], i: usize, b: &[u8], j: usize, size: usize) -> bool
    requires { (i + «size» ≤ length a.now) × (j + «size» ≤ length b.now) }
    ensures the_same { result ≡ true → SameFrom a.now i b.now j «size» }
    ensures not_the_same { result ≡ false → SameFrom a.now i b.now j «size» → ⊥ }
{
    let mut difference: u8 = 0;
    for k in 0..size {
        difference |= a[i + k] ^ b[j + k];
    }
    difference == 0
}

// How many of the last `most` bytes are the same, counted from the back by blocks of `size` bytes: the last `known` are, and a
// block that differs, or is not whole, ends the count.
fn same_blocks(a: &[u8], b: &[u8], most: usize, size: usize, known: usize) -> usize
    requires { (most ≤ length a.now) × (most ≤ length b.now) × (0 < «size») × (known ≤ most) × SameBack a.now b.now known }
    ensures { (result ≤ most) × SameBack a.now b.now result
        × (result + «size» ≤ most → SameFrom a.now (length a.now - (result + «size»)) b.now
        (length b.now - (result + «size»)) «size» → ⊥) }
{
    let mut k = known;
    // (A while: the step is the size of a block.)
    while size <= most - k {
        if !same_block(a, a.len() - (k + size), b, b.len() - (k + size), size) {
            return k;
        }
        k += size;
    }
    k
}

// The agreement: how many last bytes are the same in both.
pub fn common_tail(a: &[u8], b: &[u8]) -> usize
    ensures { result ≡ agree a.now b.now }
{
    let most = a.len().min(b.len());
    let wide = same_blocks(a, b, most, 32, 0);
    let narrow = same_blocks(a, b, most, 8, wide);
    same_blocks(a, b, most, 1, narrow)
}

// Does b end with a? It does where the agreement is all of a.
pub fn is_tail(a: &[u8], b: &[u8]) -> bool
    ensures { result ≡ is_tail a.now b.now }
{
    common_tail(a, b) == a.len()
}
