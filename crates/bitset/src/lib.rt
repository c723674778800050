// Sets of cells as bits of bytes: docs/RULES.md, 6.1. Crate `rows` has bits of words of 64: a trait over both, with the laws that the contracts need, would be
// longer than the four functions.
#![tactic(auto)]

ghost use Rattle.std.specs.Prelude.{◌≡◌, length, replicate};
ghost use Rattle.bitset.specs.Bits.{marked, marking, bytes_of, outside};

// Whether a cell is marked. Past the end of the mask none is.
pub fn is_marked(mask: &[u8], cell: u32) -> bool
    ensures { result ≡ marked mask.now cell }
{
    match mask.get((cell / 8) as usize) {
        Some(byte) => (byte >> (cell % 8)) % 2 == 1,
        None => false,
    }
}

// Marks a cell. Past the end of the mask there is none to mark.
pub fn mark(mask: &mut [u8], cell: u32)
    ensures { mask.new ≡ marking mask.old cell }
{
    let at = (cell / 8) as usize;
    if at < mask.len() {
        mask[at] |= 1 << (cell % 8);
    }
}

// Unmarks every cell.
pub fn clear(mask: &mut [u8])
    ensures { mask.new ≡ replicate (length mask.old) 0 }
{
    mask.fill(0);
}

// Marks exactly the cells that were not marked.
pub fn complement(mask: &mut [u8])
    ensures { mask.new ≡ bytes_of (length mask.old) (outside (marked mask.old)) }
{
    for byte in mask.iter_mut() {
        *byte = !*byte;
    }
}
