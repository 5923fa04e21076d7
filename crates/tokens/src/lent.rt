// Tables of records, in words: what is written is written only where it fits whole.
ghost use Rattle.std.specs.Prelude.{◌≡◌, ◌*◌, min, length, replicate};
ghost use Rattle.tokens.specs.Lent.{put, cleared_behind};

// Record number n of a table of records as wide as this one, where the whole of it lies in the table. The words are a slice, none of them too: the
// promise, `put` (specs/Lent), is of any width, is named in docs/PROMISES.md, and four crates call it so. An array with a const parameter would change it for all of them.
//
// Word by word, and no `copy_from_slice`: for that the compiler stores the words in the stack first, four bytes at a time, and loads them from there in wider pieces, which
// waits for the stores (bench/README.md).
pub fn put_record(table: &mut [u32], n: usize, words: &[u32])
    ensures { table.new ≡ put (length words.now) table.old n words.now }
{
    let w = words.len();
    if w == 0 {
        return;
    }
    if n < table.len() / w {
        let at = n * w;
        for i in 0..w {
            table[at + i] = words[i];
        }
    }
}

// Every word 0.
pub fn clear(table: &mut [u32])
    ensures { table.new ≡ replicate (length table.old) 0 }
{
    table.fill(0);
}

// Here and below the width is a number, as in `cleared_behind` (specs/Lent). Where record number n of w words begins in a table of `len` words, at most at its end: the part from there on is what is still free.
pub fn start_of(len: usize, n: usize, w: usize) -> usize
    ensures { result ≡ min (n * w) len }
{
    n.saturating_mul(w).min(len)
}

// Every word behind the first n records of w words 0.
#[tactic(auto, using(crate::proofs::LentLaws::rest_cleared))]
pub fn clear_behind(table: &mut [u32], n: usize, w: usize)
    ensures { table.new ≡ cleared_behind w n table.old }
{
    let x = start_of(table.len(), n, w);
    clear(&mut table[x..]);
}
