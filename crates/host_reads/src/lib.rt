// What byte reads of the main registers give. The functions that give a byte require a state in its ranges, where each word read as one
// byte is below 256: a fact of the lent state, which the words' type does not say.
#![tactic(auto)]

ghost use Rattle.std.specs.Prelude.{◌≡◌, true, cond, List, ℕ, ◌≤◌};
ghost use Rattle.xosera.specs.State.{state_at};
ghost use Rattle.xosera.specs.Fields.{flag_bits};
ghost use Rattle.xosera.specs.Adapter.{adapter_at};
ghost use Rattle.xosera.specs.HostBytes.{shown, flags_of, high_byte, low_byte};
ghost use Rattle.xosera.specs.Events.{read, call};
ghost use Rattle.xosera.specs.Told.{main_number};
ghost use Rattle.xosera.specs.Ranges.{in_range};
ghost use Rattle.xosera.specs.Acts.{given};

use xosera::{
    BEAM_LINE, BEAM_POSITION, BLITTER_BUSY, BLITTER_FULL, ENGINE_RUNNING, FRAME_BLANK, HBLANK,
    INT_MASK, MainRegister, NIBBLES, QUEUED, RD_ADDR, RD_INCR, RD_XADDR, STATUS, StateWords, TIMER,
    TIMER_SAVED, VBLANK, VISIBLE_LINES, VRAM_BUFFER, WR_ADDR, WR_INCR, WR_XADDR, XR_BUFFER,
};

// The word that a register shows.
#[tactic(auto, unfolding(xosera::specs::State::state_at, xosera::specs::HostBytes::shown))]
fn shown(s: &StateWords, reg: MainRegister) -> u16
    ensures { result ≡ shown (state_at s.now).host (main_number reg) }
{
    match reg {
        MainRegister::RdXaddr => s[RD_XADDR],
        MainRegister::WrXaddr => s[WR_XADDR],
        MainRegister::Xdata => s[XR_BUFFER],
        MainRegister::RdIncr => s[RD_INCR],
        MainRegister::RdAddr => s[RD_ADDR],
        MainRegister::WrIncr => s[WR_INCR],
        MainRegister::WrAddr => s[WR_ADDR],
        MainRegister::Data | MainRegister::Data2 => s[VRAM_BUFFER],
        _ => 0,
    }
}

// A flag as a bit of a byte.
fn flag(set: bool, bit: u8) -> u8
    ensures { (result ≡ cond set bit 0) × (result ≤ bit) }
{
    if set { bit } else { 0 }
}

// The flags in the high byte of XM_SYS_CTRL: the blitter's and the beam's.
#[tactic(auto, unfolding(xosera::specs::State::state_at, xosera::specs::Fields::flag_bits, xosera::specs::Beam::h_blank, xosera::specs::Beam::v_blank))]
fn flags(s: &StateWords) -> u8
    ensures { result ≡ flag_bits (flags_of (state_at s.now)) }
{
    let blitter = flag(s[QUEUED] == 1, BLITTER_FULL) + flag(s[ENGINE_RUNNING] == 1, BLITTER_BUSY);
    let beam = flag(s[BEAM_POSITION] < FRAME_BLANK, HBLANK)
        + flag(s[BEAM_LINE] >= VISIBLE_LINES, VBLANK);
    blitter + beam
}

// The byte of an even read.
#[tactic(auto, unfolding(xosera::specs::State::state_at, xosera::specs::HostBytes::high_byte))]
fn high_byte(s: &StateWords, reg: MainRegister) -> u8
    requires { in_range (state_at s.now) ≡ true }
    ensures { result ≡ high_byte (state_at s.now).host (flags_of (state_at s.now)) (main_number reg) }
{
    match reg {
        MainRegister::SysCtrl => flags(s),
        MainRegister::IntCtrl => words::low_byte(s[INT_MASK]),
        MainRegister::Timer => words::high_byte(s[TIMER]),
        _ => words::high_byte(shown(s, reg)),
    }
}

// The byte of an odd read.
#[tactic(auto, unfolding(xosera::specs::State::state_at, xosera::specs::HostBytes::low_byte))]
fn low_byte(s: &StateWords, reg: MainRegister) -> u8
    requires { in_range (state_at s.now) ≡ true }
    ensures { result ≡ low_byte (state_at s.now).host (state_at s.now).status (main_number reg) }
{
    match reg {
        MainRegister::SysCtrl => words::low_byte(s[NIBBLES]),
        MainRegister::IntCtrl => words::low_byte(s[STATUS]),
        MainRegister::Timer => words::low_byte(s[TIMER_SAVED]),
        _ => words::low_byte(shown(s, reg)),
    }
}

// The byte of a read. It answers for every number, as `access::read` does: 0 for those of no register.
#[tactic(auto, unfolding(xosera::specs::Acts::given))]
pub fn byte_read(s: &StateWords, reg: u8, odd: bool) -> u8
    requires { in_range (state_at s.now) ≡ true }
    ensures { (v x : List ℕ) → result ≡ given (adapter_at s.now v x) (call (read reg odd)) }
{
    let Ok(reg) = MainRegister::try_from(reg) else {
        return 0;
    };
    if odd {
        low_byte(s, reg)
    } else {
        high_byte(s, reg)
    }
}
