// The bytes of a mask, eight at a time: the 64 cells of one block.
ghost use Rattle.std.specs.Prelude.{◌≡◌, cond, ℕ, ◌+◌, ◌*◌, ◌/◌, ◌%◌, ◌≤◌, ◌<◌, eqb, length};
ghost use Rattle.bitset.specs.Bits.{bit, marked};

// The marks of a block's cells.
#[tactic(auto, using(crate::proofs::Joined::word_read))]
pub(crate) fn word_at(mask: &[u8], block: u32) -> u64
    requires { 8 * block + 8 ≤ length mask.now }
    ensures { (j : ℕ) → j < 64 → bit result j ≡ marked mask.now (64 * block + j) }
{
    let first = 8 * (block as usize);
    let mut bytes = [0; 8];
    bytes.copy_from_slice(&mask[first..first + 8]);
    u64::from_le_bytes(bytes)
}

// Writes the marks of a block's cells.
#[tactic(auto, using(crate::proofs::Joined::word_written))]
pub(crate) fn store_word(mask: &mut [u8], block: u32, word: u64)
    requires { 8 * block + 8 ≤ length mask.old }
    ensures { (c : ℕ) → marked mask.new c ≡ cond (eqb (c / 64) block) (bit word (c % 64)) (marked mask.old c) }
{
    let first = 8 * (block as usize);
    mask[first..first + 8].copy_from_slice(&word.to_le_bytes());
}
