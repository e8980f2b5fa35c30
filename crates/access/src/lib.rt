// Host accesses and the interrupt line on the words of the state and the lent memories. The caller has tested
// lengths, ranges and refusals.
#![tactic(auto)]

ghost use Rattle.std.specs.Prelude.{◌≡◌, true, ◌≤◌, length, get_or};
ghost use Rattle.xosera.specs.State.{state_at};
ghost use Rattle.xosera.specs.Memories.{is_vram_length};
ghost use Rattle.xosera.specs.Adapter.{Side, adapter_at};
ghost use Rattle.xosera.specs.HostBytes.{write_word, write_byte, read_byte};
ghost use Rattle.xosera.specs.Plan.{Performs};
ghost use Rattle.xosera.specs.Told.{main_number};
ghost use Rattle.xosera.specs.Acts.{line_up};

use xosera::{
    INT_MASK, MainRegister, NIBBLES, RD_INCR, STATUS, StateWords, VramAddr, WR_ADDR, WR_INCR,
    WR_XADDR, XrAddr, XrWords,
};

// An odd write, by register. The answer is the nibbles of VRAM that it wrote.
#[tactic(auto, unfolding(xosera::specs::State::state_at, xosera::specs::Memories::stored, xosera::specs::Plan::changed, xosera::specs::Plan::perform, xosera::specs::XrSpace::xr_write, xosera::specs::HostBytes::vram_load, xosera::specs::HostBytes::write_word))]
fn write_word(
    s: &mut StateWords,
    vram: &mut [u16],
    xr: &mut XrWords,
    reg: MainRegister,
    w: u16,
) -> u16
    requires { is_vram_length (length vram.old) ≡ true }
    ensures done { Performs (λ (side : Side). write_word (main_number reg) side w) s.old vram.old xr.old
        s.new vram.new xr.new }
    ensures mask { result ≡ (write_word (main_number reg) (adapter_at s.old vram.old xr.old).side w).store.mask }
{
    match reg {
        MainRegister::SysCtrl => s[NIBBLES] = fields::wr_mask(w),
        MainRegister::IntCtrl => host_writes::write_int_ctrl(s, w),
        MainRegister::Timer => timer::set_countdown(s, w),
        MainRegister::RdXaddr => xr_port::load(s, xr, XrAddr(w)),
        MainRegister::WrXaddr => s[WR_XADDR] = w,
        MainRegister::Xdata => xr_port::write(s, xr, w),
        MainRegister::RdIncr => s[RD_INCR] = w,
        MainRegister::RdAddr => vram_port::load(s, vram, VramAddr(w)),
        MainRegister::WrIncr => s[WR_INCR] = w,
        MainRegister::WrAddr => s[WR_ADDR] = w,
        MainRegister::Data | MainRegister::Data2 => return vram_port::write(s, vram, w),
        _ => {}
    }
    0
}

// A byte write. The answer is the nibbles of VRAM that it wrote. `latch`: a byte in a state in its ranges, which the words' type does
// not say.
#[tactic(auto, unfolding(xosera::specs::HostBytes::write_byte))]
pub fn write(
    s: &mut StateWords,
    vram: &mut [u16],
    xr: &mut XrWords,
    reg: MainRegister,
    odd: bool,
    byte: u8,
) -> u16
    requires vram_value { is_vram_length (length vram.old) ≡ true }
    requires latch { get_or (state_at s.old).host.latches (main_number reg) 0 ≤ 255 }
    ensures done { Performs (λ (side : Side). write_byte side (main_number reg) odd byte) s.old vram.old
        xr.old s.new vram.new xr.new }
    ensures mask { result ≡ (write_byte (adapter_at s.old vram.old xr.old).side (main_number reg) odd byte).store.mask }
{
    if !odd {
        host_writes::fill_latch(s, reg, byte);
        return 0;
    }
    let w = host_writes::word_written(s, reg, byte);
    write_word(s, vram, xr, reg, w)
}

// What a byte read does besides giving its byte; of a number over 15 nothing. It may not ask for a register: it answers for all numbers,
// as `byte_read` does (docs/DECISIONS.md). `odd` is asked first: by the register first a byte read takes up to a tenth more instructions.
#[tactic(auto, unfolding(xosera::specs::Memories::stored, xosera::specs::Plan::changed, xosera::specs::Plan::perform, xosera::specs::HostBytes::read_byte))]
pub fn read(s: &mut StateWords, vram: &[u16], xr: &XrWords, reg: u8, odd: bool)
    requires { is_vram_length (length vram.now) ≡ true }
    ensures { Performs (λ (side : Side). read_byte side reg odd) s.old vram.now xr.now s.new
        vram.now xr.now }
{
    match (odd, MainRegister::try_from(reg)) {
        (false, Ok(MainRegister::Timer)) => timer::save(s),
        (true, Ok(MainRegister::Xdata)) => xr_port::read(s, xr),
        (true, Ok(MainRegister::Data | MainRegister::Data2)) => vram_port::read(s, vram),
        _ => {}
    }
}

// The interrupt line is up when some bit is set in both mask and status.
#[tactic(auto, unfolding(xosera::specs::State::state_at, xosera::specs::Acts::line_up))]
pub fn line_up(s: &StateWords) -> bool
    ensures { result ≡ line_up (state_at s.now).host.intmask (state_at s.now).status }
{
    (s[INT_MASK] & s[STATUS]) != 0
}
