// The steps of an adapter: blit steps and runs of them, timer ticks, beam steps. Each is lent the words of the state and the
// memories, works in place or gives the one refusal that applies and changes nothing.
#![tactic(auto)]

ghost use Rattle.std.specs.Prelude.{List, ℕ};
ghost use Rattle.xosera.specs.Adapter.{adapter_at};
ghost use Rattle.xosera.specs.Events.{tick, beam, call, step, run, Untouched, of_done, of_nothing};
ghost use Rattle.calls.specs.Promises.{Does};

use xosera::{Done, Refusal, StateWords};

// One blit step: one word.
pub fn blit_step(s: &mut StateWords, vram: &mut [u16], xr: &[u16]) -> Result<Done, Refusal>
    ensures done { Does (adapter_at s.old vram.old xr.now) step (of_done result)
        (adapter_at s.new vram.new xr.now) }
    ensures refused { Untouched (of_done result) s.old s.new }
{
    let registers = ranges::registers_in_range(s);
    let beam = ranges::beam_in_range(s);
    refusals::lent_refusal(s, registers, beam, vram.len(), xr.len())?;
    Ok(queue::step(s, vram))
}

// A run of up to n blit steps.
pub fn blit_run(s: &mut StateWords, vram: &mut [u16], xr: &[u16], n: u64) -> Result<Done, Refusal>
    ensures done { Does (adapter_at s.old vram.old xr.now) (run n) (of_done result)
        (adapter_at s.new vram.new xr.now) }
    ensures refused { Untouched (of_done result) s.old s.new }
{
    let registers = ranges::registers_in_range(s);
    let beam = ranges::beam_in_range(s);
    refusals::lent_refusal(s, registers, beam, vram.len(), xr.len())?;
    Ok(queue_runs::run(s, vram, n))
}

// A timer tick.
pub fn timer_tick(s: &mut StateWords) -> Result<(), Refusal>
    ensures done { (v x : List ℕ) → Does (adapter_at s.old v x) (call tick) (of_nothing result) (adapter_at s.new v x) }
    ensures refused { Untouched (of_nothing result) s.old s.new }
{
    let registers = ranges::registers_in_range(s);
    let beam = ranges::beam_in_range(s);
    refusals::state_refusal(s, registers, beam)?;
    timer::tick(s);
    Ok(())
}

// One beam step: one native pixel, and an instruction of a running copper.
pub fn beam_step(s: &mut StateWords, vram: &[u16], xr: &mut [u16]) -> Result<(), Refusal>
    ensures done { Does (adapter_at s.old vram.now xr.old) (call beam) (of_nothing result)
        (adapter_at s.new vram.now xr.new) }
    ensures refused { Untouched (of_nothing result) s.old s.new }
{
    let registers = ranges::registers_in_range(s);
    let beam = ranges::beam_in_range(s);
    refusals::lent_refusal(s, registers, beam, vram.len(), xr.len())?;
    copper::beam_step(s, xr.as_mut_array().unwrap());
    Ok(())
}
