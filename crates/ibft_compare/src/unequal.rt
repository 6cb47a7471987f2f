// Whether byte strings are unequal, and from where on.
ghost use Rattle.std.specs.Prelude.{◌≡◌, ◌≤◌, length};
ghost use Rattle.ibft_compare.specs.Differences.{first_unequal, unequal};
ghost use Rattle.ibft_compare.specs.Walk.{only_one};

// The first unequal byte of two strings: how many first bytes are the same in both.
pub(crate) fn first_unequal(a: &[u8], b: &[u8]) -> usize
    ensures { (result ≡ first_unequal a.now b.now) × (result ≤ length a.now) }
{
    let most = a.len().min(b.len());
    for k in 0..most {
        if a[k] != b[k] {
            return k;
        }
    }
    most
}

// Are they not the same?
pub(crate) fn unequal(a: &[u8], b: &[u8]) -> bool
    ensures { result ≡ unequal a.now b.now }
{
    a != b
}

// Does only one of the two hold?
pub(crate) fn only_one(a: bool, b: bool) -> bool
    ensures { result ≡ only_one a b }
{
    a != b
}
