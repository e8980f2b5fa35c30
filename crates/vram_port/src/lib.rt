// The VRAM data ports, XM_DATA and XM_DATA_2: reads through the read buffer, writes under the nibble mask. Its load and read look
// like those of xr_port, but words, memory and definitions are others, and a form over both would be a trait for six lines.
#![tactic(auto)]

ghost use Rattle.std.specs.Prelude.{◌≡◌, ℕ, true, List, length};
ghost use Rattle.xosera.specs.State.{state_at};
ghost use Rattle.xosera.specs.Memories.{is_vram_length};
ghost use Rattle.xosera.specs.Adapter.{Side};
ghost use Rattle.xosera.specs.HostBytes.{vram_load, write_data, read_data};
ghost use Rattle.xosera.specs.Plan.{Performs};

use xosera::{NIBBLES, RD_ADDR, RD_INCR, StateWords, VRAM_BUFFER, VramAddr, WR_ADDR, WR_INCR};

// XM_RD_ADDR set, and the read buffer loaded from there.
pub fn load(s: &mut StateWords, vram: &[u16], a: VramAddr)
    requires { is_vram_length (length vram.now) ≡ true }
    ensures { (x : List ℕ) → Performs (λ (side : Side). vram_load side a.0) s.old vram.now x s.new
        vram.now x }
{
    let word = vram::read_word(vram, a);
    s[RD_ADDR] = a.0;
    s[VRAM_BUFFER] = word;
}

// An odd read: XM_RD_INCR is added to XM_RD_ADDR and the buffer is loaded again.
#[tactic(auto, unfolding(xosera::specs::State::state_at, xosera::specs::Words::wrap))]
pub fn read(s: &mut StateWords, vram: &[u16])
    requires { is_vram_length (length vram.now) ≡ true }
    ensures { (x : List ℕ) → Performs read_data s.old vram.now x s.new vram.now x }
{
    let a = VramAddr(s[RD_ADDR].wrapping_add(s[RD_INCR]));
    load(s, vram, a);
}

// An odd write: a store at XM_WR_ADDR under the nibble mask, and XM_WR_INCR added to the address. The answer is the mask, as
// the word of the state that it is: that it has four bits is known only of a state in range.
#[tactic(auto, unfolding(xosera::specs::State::state_at, xosera::specs::Words::wrap, xosera::specs::Plan::changed, xosera::specs::Plan::perform))]
pub fn write(s: &mut StateWords, vram: &mut [u16], w: u16) -> u16
    requires { is_vram_length (length vram.old) ≡ true }
    ensures done { (x : List ℕ) → Performs (λ (side : Side). write_data side w) s.old vram.old x
        s.new vram.new x }
    ensures mask { result ≡ (state_at s.old).host.vram.nibbles }
{
    let a = VramAddr(s[WR_ADDR]);
    let mask = s[NIBBLES];
    vram::store(vram, a, mask, w);
    s[WR_ADDR] = a.0.wrapping_add(s[WR_INCR]);
    mask
}
