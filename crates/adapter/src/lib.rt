// The host's calls on an adapter: reset, a byte written or read, and the line question. Each is lent the words of the state and the
// memories, works in place or gives the one refusal that applies and changes nothing.
#![tactic(auto)]

ghost use Rattle.std.specs.Prelude.{◌≡◌, List, ℕ};
ghost use Rattle.xosera.specs.State.{state_at};
ghost use Rattle.xosera.specs.Adapter.{adapter_at};
ghost use Rattle.xosera.specs.Events.{write, read, line, call, Untouched, of_mask, of_number, of_up};
ghost use Rattle.xosera.specs.Ranges.{reset_state};
ghost use Rattle.calls.specs.Promises.{Does};

use xosera::{NIBBLES, Refusal, STATE_WORDS, StateWords, VID_RIGHT};

// The state after reset, whatever the words were. It refuses nothing and takes no memory.
pub fn reset(s: &mut StateWords)
    ensures { state_at s.new ≡ reset_state }
{
    *s = [0; STATE_WORDS];
    s[NIBBLES] = 15;
    s[VID_RIGHT] = 640;
}

// A host writes one byte of a main register. It gives the nibbles of VRAM that were written, bit 3 for 15:12 of the word to bit 0
// for 3:0, which are 0 of all but an odd data write.
pub fn write_byte(
    s: &mut StateWords,
    vram: &mut [u16],
    xr: &mut [u16],
    reg: u8,
    odd: bool,
    byte: u8,
) -> Result<u8, Refusal>
    ensures done { Does (adapter_at s.old vram.old xr.old) (call (write reg odd byte)) (of_mask result)
        (adapter_at s.new vram.new xr.new) }
    ensures refused { Untouched (of_mask result) s.old s.new }
{
    let reg = refusals::write_refusal(s, vram.len(), xr.len(), reg, odd, byte)?;
    let xr = xr.as_mut_array().unwrap();
    let mask = access::write(s, vram, xr, reg, odd, byte);
    Ok(words::low_byte(mask))
}

// A host reads one byte of a main register. It tests the beam before the registers, for speed (docs/DECISIONS.md).
pub fn read_byte(
    s: &mut StateWords,
    vram: &[u16],
    xr: &[u16],
    reg: u8,
    odd: bool,
) -> Result<u8, Refusal>
    ensures done { Does (adapter_at s.old vram.now xr.now) (call (read reg odd)) (of_number result)
        (adapter_at s.new vram.now xr.now) }
    ensures refused { Untouched (of_number result) s.old s.new }
{
    let beam = ranges::beam_in_range(s);
    let registers = ranges::registers_in_range(s);
    refusals::read_refusal(s, registers, beam, vram.len(), xr.len(), reg)?;
    let byte = host_reads::byte_read(s, reg, odd);
    access::read(s, vram, xr.as_array().unwrap(), reg, odd);
    Ok(byte)
}

// Whether the interrupt line is up. It changes nothing.
pub fn interrupt_line(s: &StateWords) -> Result<bool, Refusal>
    ensures { (v x : List ℕ) → Does (adapter_at s.now v x) (call line) (of_up result) (adapter_at s.now v x) }
{
    let registers = ranges::registers_in_range(s);
    let beam = ranges::beam_in_range(s);
    refusals::state_refusal(s, registers, beam)?;
    Ok(access::line_up(s))
}
