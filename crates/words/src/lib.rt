// Words of 16 bits, their bytes and nibbles.
#![tactic(auto)]

ghost use Rattle.std.specs.Prelude.{◌≡◌, ℕ, ◌/◌, ◌%◌, ◌<◌};
ghost use Rattle.xosera.specs.Words.{bit, merged, shifted, combined, colour_mask};
ghost use Rattle.xosera.specs.Fields.{shift_count};
ghost use Rattle.xosera.specs.HostBytes.{word_of};
ghost use Rattle.words.specs.Spread.{spread};

// The word of a latch and a byte.
#[tactic(auto, unfolding(xosera::specs::HostBytes::word_of))]
pub fn word_of(latch: u8, byte: u8) -> u16
    ensures { result ≡ word_of latch byte }
{
    u16::from_be_bytes([latch, byte])
}

pub fn high_byte(w: u16) -> u8
    ensures { result ≡ w / 256 }
{
    (w / 256) as u8
}

pub fn low_byte(w: u16) -> u8
    ensures { result ≡ w % 256 }
{
    (w % 256) as u8
}

// Each bit of a nibble mask four times, over its nibble.
pub fn spread(mask: u16) -> u16
    ensures { result ≡ spread mask }
{
    ((((((mask % 16) * 65) & 0x0303) * 9) & 0x1111) * 15)
}

// The nibble mask that was spread.
pub fn gathered(bits: u16) -> u8
    ensures { (m : ℕ) → bits ≡ spread m → result ≡ m % 16 }
{
    (((((bits & 0x1111) as u32) * 0x0249) >> 9) % 16) as u8
}

// Whether a spread mask has nibble k, 0 the lowest.
pub fn has_nibble(k: u16, bits: u16) -> bool
    requires { k < 4 }
    ensures { (m : ℕ) → bits ≡ spread m → result ≡ bit k m }
{
    bit(4 * k, bits)
}

// A word written under a spread nibble mask.
pub fn blended(bits: u16, old: u16, new: u16) -> u16
    ensures { (m : ℕ) → bits ≡ spread m → result ≡ merged m old new }
{
    (old & !bits) | (new & bits)
}

// The shifter: the low nibbles of the word before enter at the top.
pub fn shifted(shift: u16, before: u16, s: u16) -> u16
    ensures { result ≡ shifted (shift_count shift) before s }
{
    let pair = (before as u32) * 65536 + (s as u32);
    ((pair >> ((shift % 4) * 4)) % 65536) as u16
}

pub fn combined(s: u16, andc: u16, xor: u16) -> u16
    ensures { result ≡ combined s andc xor }
{
    (s & !andc) ^ xor
}

pub fn bit(k: u16, w: u16) -> bool
    requires { k < 16 }
    ensures { result ≡ bit k w }
{
    (w >> k) % 2 == 1
}

// The nibbles that the colour test lets through, as a spread mask. All nibbles are compared at once: the top bit of a
// nibble of `tops` is set where S and T differ, and no sum reaches the next nibble.
pub fn colour_bits(bytes: bool, t: u16, s: u16) -> u16
    requires { t < 256 }
    ensures { result ≡ spread (colour_mask bytes t s) }
{
    let x = s ^ (t * 0x0101);
    let tops = (((x & 0x7777) + 0x7777) | x) & 0x8888;
    if bytes {
        return (((tops | (tops >> 4)) & 0x0808) >> 3) * 255;
    }
    (tops >> 3) * 15
}
