//! Lists of numbers, compared.

ghost use Rattle.std.specs.Prelude.{◌≡◌, IsTrue, ◌↔◌};

/// How many numbers are compared before it is asked whether they differ.
const BLOCK: usize = 64;

/// Whether two lists of numbers are the same. They are compared block by block.
pub(crate) fn same_numbers(left: &[i64], right: &[i64]) -> bool
    ensures { IsTrue result ↔ (left.now ≡ right.now) }
{
    if left.len() != right.len() {
        return false;
    }
    let (left_blocks, left_rest) = left.as_chunks::<BLOCK>();
    let (right_blocks, right_rest) = right.as_chunks::<BLOCK>();
    for place in 0..left_blocks.len() {
        if !same_block(&left_blocks[place], &right_blocks[place]) {
            return false;
        }
    }
    left_rest == right_rest
}

/// Whether two blocks are the same: where they differ is put together, so that one question does for all of it.
fn same_block(left: &[i64; BLOCK], right: &[i64; BLOCK]) -> bool
    ensures { IsTrue result ↔ (left.now ≡ right.now) }
{
    let mut difference = 0;
    for place in 0..BLOCK {
        difference |= left[place] ^ right[place];
    }
    difference == 0
}
