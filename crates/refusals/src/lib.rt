// The refusals 1 to 6 of every call: the first that applies, in their order. Where a function takes `registers` and `beam`, its caller
// has tested these ranges already, so that the function is short enough for the compiler to put it into every call.
#![tactic(auto)]

ghost use Rattle.std.specs.Prelude.{◌≡◌, Bool, true, not, ◌&&◌, List, [], ◌∷◌, ℕ, ◌≤◌, length, get_or, IfOk};
ghost use Rattle.xosera.specs.State.{state_at};
ghost use Rattle.xosera.specs.Adapter.{adapter_at};
ghost use Rattle.xosera.specs.Events.{write, read, call};
ghost use Rattle.xosera.specs.Told.{main_number, refused};
ghost use Rattle.xosera.specs.Ranges.{in_range};
ghost use Rattle.calls.specs.Refusals.{blitter_full, reconfigures, ◌when◌, first, refusal};
ghost use Rattle.ranges.specs.RangeParts.{registers_in_range, beam_copper_in_range};
ghost use Rattle.refusals.specs.Tested.{lengths_refusal, lent_refusal};

use xosera::{MainRegister, Refusal, StateWords, WR_XADDR, XR_WORDS};

// Refusal 3, the only one of a timer tick and the line question.
#[tactic(auto, using(ranges::proofs::AllParts::range_parts), unfolding(calls::specs::Refusals::first))]
pub fn state_refusal(s: &StateWords, registers: bool, beam: bool) -> Result<(), Refusal>
    requires registers_value { registers ≡ registers_in_range (state_at s.now) }
    requires beam_value { beam ≡ beam_copper_in_range (state_at s.now) }
    ensures { refused result ≡ first ((3 when not (in_range (state_at s.now))) ∷ []) }
{
    if registers && beam && ranges::blitter_in_range(s) {
        Ok(())
    } else {
        Err(Refusal::StateRange)
    }
}

// Refusals 1 and 2: the lengths of the memories.
#[tactic(auto, unfolding(crate::specs::Tested::lengths_refusal, calls::specs::Refusals::first, xosera::specs::Memories::is_xr_length))]
fn lengths_refusal(vram: usize, xr: usize) -> Result<(), Refusal>
    ensures { refused result ≡ lengths_refusal vram xr }
{
    if !vram::is_vram_length(vram) {
        return Err(Refusal::VramLength);
    }
    if xr != XR_WORDS {
        return Err(Refusal::XrLength);
    }
    Ok(())
}

// Refusals 1 to 3, those of a blit step, a run and a beam step, and the first of a byte read.
pub fn lent_refusal(
    s: &StateWords,
    registers: bool,
    beam: bool,
    vram: usize,
    xr: usize,
) -> Result<(), Refusal>
    requires registers_value { registers ≡ registers_in_range (state_at s.now) }
    requires beam_value { beam ≡ beam_copper_in_range (state_at s.now) }
    ensures { refused result ≡ lent_refusal vram xr (state_at s.now) }
{
    lengths_refusal(vram, xr)?;
    state_refusal(s, registers, beam)
}

// The same with all ranges tested here, for a save, a load and a painted line, which take so long that this does not matter. Always
// inlined, as the tests are in every other call: a refused save or load, and a blank line, take no longer for it.
#[inline(always)]
pub fn tested_refusal(s: &StateWords, vram: usize, xr: usize) -> Result<(), Refusal>
    ensures { refused result ≡ lent_refusal vram xr (state_at s.now) }
{
    let registers = ranges::registers_in_range(s);
    let beam = ranges::beam_in_range(s);
    lent_refusal(s, registers, beam, vram, xr)
}

// Refusals 1 to 4, those of a byte read; where none applies, the register.
pub fn read_refusal(
    s: &StateWords,
    registers: bool,
    beam: bool,
    vram: usize,
    xr: usize,
    reg: u8,
) -> Result<MainRegister, Refusal>
    requires registers_value { registers ≡ registers_in_range (state_at s.now) }
    requires beam_value { beam ≡ beam_copper_in_range (state_at s.now) }
    ensures register { IfOk result (λ r. main_number r ≡ reg) }
    ensures number { (v x : List ℕ) (odd : Bool) → length v ≡ vram → length x ≡ xr →
        refused result ≡ refusal (adapter_at s.now v x) (call (read reg odd)) }
{
    lent_refusal(s, registers, beam, vram, xr)?;
    MainRegister::try_from(reg)
}

// Refusals 5 and 6, those of an odd write alone. The latch is a byte in a state in its ranges, which the words' type does not say.
#[tactic(auto, unfolding(xosera::specs::State::state_at, calls::specs::Refusals::first, calls::specs::Refusals::blitter_full, calls::specs::Refusals::reconfigures))]
fn odd_refusal(s: &StateWords, reg: MainRegister, byte: u8) -> Result<(), Refusal>
    requires { get_or (state_at s.now).host.latches (main_number reg) 0 ≤ 255 }
    ensures { (v x : List ℕ) → refused result ≡ first ((5 when blitter_full (adapter_at s.now v x) (main_number reg) true) ∷
        (6 when reconfigures (adapter_at s.now v x) (main_number reg) true byte) ∷ []) }
{
    match reg {
        MainRegister::Xdata if xr_memory::reaches_full(s, s[WR_XADDR]) => Err(Refusal::BlitterFull),
        MainRegister::IntCtrl if fields::is_reconfigure(host_writes::word_written(s, reg, byte)) =>
            { Err(Refusal::Reconfigure) }
        _ => Ok(()),
    }
}

// Refusal 3 with all ranges tested here.
#[tactic(auto, using(ranges::proofs::AllParts::range_parts), unfolding(calls::specs::Refusals::first))]
fn whole_refusal(s: &StateWords) -> Result<(), Refusal>
    ensures { refused result ≡ first ((3 when not (in_range (state_at s.now))) ∷ []) }
{
    if !ranges::beam_in_range(s) {
        return Err(Refusal::StateRange);
    }
    state_refusal(s, ranges::registers_in_range(s), true)
}

// Refusals 1 to 6, those of a byte write; where none applies, the register. It tests all ranges itself, behind the lengths: here that
// is faster.
pub fn write_refusal(
    s: &StateWords,
    vram: usize,
    xr: usize,
    reg: u8,
    odd: bool,
    byte: u8,
) -> Result<MainRegister, Refusal>
    ensures register { IfOk result (λ r. main_number r ≡ reg) }
    ensures number { (v x : List ℕ) → length v ≡ vram → length x ≡ xr →
        refused result ≡ refusal (adapter_at s.now v x) (call (write reg odd byte)) }
{
    lengths_refusal(vram, xr)?;
    whole_refusal(s)?;
    let reg = MainRegister::try_from(reg)?;
    if odd {
        odd_refusal(s, reg, byte)?;
    }
    Ok(reg)
}
