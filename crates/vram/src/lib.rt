// VRAM by its address modulo the length. It is a lent slice whose length each function requires: in a struct round the slice, which was
// tried, the check no longer knows after a call what the slice holds.
#![tactic(auto)]

ghost use Rattle.std.specs.Prelude.{◌≡◌, true, ℕ, ◌%◌, ◌<◌, length};
ghost use Rattle.xosera.specs.Memories.{is_vram_length, word, stored};
ghost use Rattle.words.specs.Spread.{spread};

use xosera::VramAddr;

// A power of two from 256 to 65,536: it has no bit in common with the number before it.
pub fn is_vram_length(n: usize) -> bool
    ensures { result ≡ is_vram_length n }
{
    if n < 256 {
        return false;
    }
    if n > 65536 {
        return false;
    }
    n & (n - 1) == 0
}

// Where a VRAM address lies. The length is a power of two, so no division is needed.
pub fn place(a: VramAddr, n: usize) -> usize
    requires { is_vram_length n ≡ true }
    ensures { (result ≡ a.0 % n) × (result < n) }
{
    (a.0 as usize) & (n - 1)
}

// Copies a memory to another that is as long. By `copy_from_slice` the library for C would need `memmove` from outside.
pub fn copy(from: &[u16], to: &mut [u16])
    requires { length from.now ≡ length to.old }
    ensures { to.new ≡ from.now }
{
    for (i, word) in from.iter().enumerate() {
        to[i] = *word;
    }
}

pub fn read_word(vram: &[u16], a: VramAddr) -> u16
    requires { is_vram_length (length vram.now) ≡ true }
    ensures { result ≡ word vram.now a.0 }
{
    let at = place(a, vram.len());
    vram[at]
}

// A store under a spread nibble mask.
pub fn store_bits(vram: &mut [u16], a: VramAddr, bits: u16, value: u16)
    requires { is_vram_length (length vram.old) ≡ true }
    ensures { (m : ℕ) → bits ≡ spread m → vram.new ≡ stored (record { mask = m; addr = a.0; value = value }) vram.old }
{
    let at = place(a, vram.len());
    let old = vram[at];
    vram[at] = words::blended(bits, old, value);
}

// A store under a nibble mask.
pub fn store(vram: &mut [u16], a: VramAddr, mask: u16, value: u16)
    requires { is_vram_length (length vram.old) ≡ true }
    ensures { vram.new ≡ stored (record { mask = mask; addr = a.0; value = value }) vram.old }
{
    store_bits(vram, a, words::spread(mask), value);
}
