// Byte writes of the main registers: the latches, the word of a latch and a byte, and the interrupt mask.
#![tactic(auto)]

ghost use Rattle.std.specs.Prelude.{◌≡◌, false, List, ℕ, ◌≤◌, get_or};
ghost use Rattle.xosera.specs.State.{state_at};
ghost use Rattle.xosera.specs.Told.{main_number};
ghost use Rattle.xosera.specs.Adapter.{Side};
ghost use Rattle.xosera.specs.HostBytes.{word_of, write_int_ctrl, write_byte};
ghost use Rattle.xosera.specs.Plan.{Performs};

use xosera::{INT_MASK, LATCHES, MainRegister, STATUS, StateWords};

// An even write fills the register's latch.
#[tactic(auto, using(crate::proofs::Latches::latches))]
pub fn fill_latch(s: &mut StateWords, reg: MainRegister, byte: u8)
    ensures { (v x : List ℕ) → Performs (λ (side : Side). write_byte side (main_number reg) false byte) s.old v x s.new v x }
{
    s[LATCHES + reg as usize] = byte as u16;
}

// The word of an odd write: the register's latch and the byte. That a latch is a byte is so in a state in its ranges, and the words'
// type does not say it.
#[tactic(auto, using(crate::proofs::Latches::latches), unfolding(xosera::specs::HostBytes::word_of))]
pub fn word_written(s: &StateWords, reg: MainRegister, byte: u8) -> u16
    requires { get_or (state_at s.now).host.latches (main_number reg) 0 ≤ 255 }
    ensures { result ≡ word_of (get_or (state_at s.now).host.latches (main_number reg) 0) byte }
{
    words::word_of(s[LATCHES + reg as usize] as u8, byte)
}

// XM_INT_CTRL: the interrupt mask set, and status bits cleared.
pub fn write_int_ctrl(s: &mut StateWords, w: u16)
    ensures { (v x : List ℕ) → Performs (λ (side : Side). write_int_ctrl side w) s.old v x s.new v x }
{
    let status = s[STATUS];
    s[INT_MASK] = fields::int_mask(w);
    s[STATUS] = status & (127 - fields::int_status(w));
}
