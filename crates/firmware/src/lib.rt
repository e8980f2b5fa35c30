// The calls for C: the public calls under the prefix xosera_, the words of the state behind a pointer and each memory as
// pointer and length. What a call answers as a Result is turned into the struct that C is given.
#![tactic(auto)]

ghost use Rattle.std.specs.Prelude.{◌≡◌, List, ℕ};
ghost use Rattle.xosera.specs.State.{state_at};
ghost use Rattle.xosera.specs.Adapter.{adapter_at};
ghost use Rattle.xosera.specs.Events.{write, read, tick, beam, line, call, step, run, Untouched, of_write, of_read, of_blit, of_state, of_line};
ghost use Rattle.xosera.specs.Ranges.{reset_state};
ghost use Rattle.calls.specs.Promises.{Does};
ghost use Rattle.saved_file.specs.SaveLoad.{of_save, of_load, Saves, Loads};
ghost use Rattle.reasons.specs.WhyCall.{Explains};
ghost use Rattle.scanline.specs.PaintCall.{Paints};
ghost use Rattle.grey.specs.Grey.{grey_level};
ghost use Rattle.paint_grey.specs.GreyLine.{PaintsGrey};

use reasons::WhyAnswer;
use scanline::PaintAnswer;
use xosera::{
    BlitAnswer, BlitRegs, LineAnswer, LoadAnswer, ReadAnswer, STATE_WORDS, SaveAnswer, StateAnswer,
    WriteAnswer,
};

// The version, 1.3.0, of which each file that includes the C header asks by this name.
#[unsafe(no_mangle)]
pub extern "C" fn xosera_header_needs_library_1_3_0() -> u32
    ensures { result ≡ 1003000 }
{
    1003000
}

#[unsafe(no_mangle)]
pub extern "C" fn xosera_reset(s: &mut [u16; STATE_WORDS])
    ensures { state_at s.new ≡ reset_state }
{
    adapter::reset(s);
}

#[unsafe(no_mangle)]
pub extern "C" fn xosera_write_byte(
    s: &mut [u16; STATE_WORDS],
    vram: &mut [u16],
    xr: &mut [u16],
    reg: u8,
    odd: bool,
    byte: u8,
) -> WriteAnswer
    ensures done { Does (adapter_at s.old vram.old xr.old) (call (write reg odd byte)) (of_write result)
        (adapter_at s.new vram.new xr.new) }
    ensures refused { Untouched (of_write result) s.old s.new }
{
    adapter::write_byte(s, vram, xr, reg, odd, byte).into()
}

#[unsafe(no_mangle)]
pub extern "C" fn xosera_read_byte(
    s: &mut [u16; STATE_WORDS],
    vram: &[u16],
    xr: &[u16],
    reg: u8,
    odd: bool,
) -> ReadAnswer
    ensures done { Does (adapter_at s.old vram.now xr.now) (call (read reg odd)) (of_read result)
        (adapter_at s.new vram.now xr.now) }
    ensures refused { Untouched (of_read result) s.old s.new }
{
    adapter::read_byte(s, vram, xr, reg, odd).into()
}

#[unsafe(no_mangle)]
pub extern "C" fn xosera_blit_step(
    s: &mut [u16; STATE_WORDS],
    vram: &mut [u16],
    xr: &[u16],
) -> BlitAnswer
    ensures done { Does (adapter_at s.old vram.old xr.now) step (of_blit result)
        (adapter_at s.new vram.new xr.now) }
    ensures refused { Untouched (of_blit result) s.old s.new }
{
    adapter_steps::blit_step(s, vram, xr).into()
}

#[unsafe(no_mangle)]
pub extern "C" fn xosera_blit_run(
    s: &mut [u16; STATE_WORDS],
    vram: &mut [u16],
    xr: &[u16],
    n: u64,
) -> BlitAnswer
    ensures done { Does (adapter_at s.old vram.old xr.now) (run n) (of_blit result)
        (adapter_at s.new vram.new xr.now) }
    ensures refused { Untouched (of_blit result) s.old s.new }
{
    adapter_steps::blit_run(s, vram, xr, n).into()
}

#[unsafe(no_mangle)]
pub extern "C" fn xosera_timer_tick(s: &mut [u16; STATE_WORDS]) -> StateAnswer
    ensures done { (v x : List ℕ) → Does (adapter_at s.old v x) (call tick) (of_state result) (adapter_at s.new v x) }
    ensures refused { Untouched (of_state result) s.old s.new }
{
    adapter_steps::timer_tick(s).into()
}

#[unsafe(no_mangle)]
pub extern "C" fn xosera_beam_step(
    s: &mut [u16; STATE_WORDS],
    vram: &[u16],
    xr: &mut [u16],
) -> StateAnswer
    ensures done { Does (adapter_at s.old vram.now xr.old) (call beam) (of_state result)
        (adapter_at s.new vram.now xr.new) }
    ensures refused { Untouched (of_state result) s.old s.new }
{
    adapter_steps::beam_step(s, vram, xr).into()
}

#[unsafe(no_mangle)]
pub extern "C" fn xosera_interrupt_line(s: &[u16; STATE_WORDS]) -> LineAnswer
    ensures { (v x : List ℕ) → Does (adapter_at s.now v x) (call line) (of_line result) (adapter_at s.now v x) }
{
    adapter::interrupt_line(s).into()
}

#[unsafe(no_mangle)]
pub extern "C" fn xosera_save(
    s: &[u16; STATE_WORDS],
    vram: &[u16],
    xr: &[u16],
    room: &mut [u8],
) -> SaveAnswer
    ensures { Saves (adapter_at s.now vram.now xr.now) room.old (of_save result) room.new }
{
    saving::save(s, vram, xr, room).into()
}

#[unsafe(no_mangle)]
pub extern "C" fn xosera_load(
    s: &mut [u16; STATE_WORDS],
    vram: &mut [u16],
    xr: &mut [u16],
    file: &[u8],
) -> LoadAnswer
    ensures done { Loads (adapter_at s.old vram.old xr.old) file.now (of_load result)
        (adapter_at s.new vram.new xr.new) }
    ensures refused { Untouched (of_load result) s.old s.new }
{
    saving::load(s, vram, xr, file).into()
}

#[unsafe(no_mangle)]
pub extern "C" fn xosera_why(
    regs: BlitRegs,
    before: &[u16],
    work: &mut [u16],
    address: u32,
    nibble: u32,
) -> WhyAnswer
    ensures { Explains regs before.now work.old (record { address = address; nibble = nibble }) result work.new }
{
    why::why_in_numbers(regs, before, work, address, nibble)
}

#[unsafe(no_mangle)]
pub extern "C" fn xosera_paint(
    s: &[u16; STATE_WORDS],
    vram: &[u16],
    xr: &[u16],
    line: u32,
    pixels: &mut [u16],
) -> PaintAnswer
    ensures { Paints (adapter_at s.now vram.now xr.now) line pixels.old result.refusal pixels.new }
{
    paint::paint(s, vram, xr, line, pixels).into()
}

#[unsafe(no_mangle)]
pub extern "C" fn xosera_grey(colour: u16) -> u8
    ensures { result ≡ grey_level colour }
{
    grey::grey(colour)
}

#[unsafe(no_mangle)]
pub extern "C" fn xosera_paint_grey(
    s: &[u16; STATE_WORDS],
    vram: &[u16],
    xr: &[u16],
    line: u32,
    pixels: &mut [u16],
) -> PaintAnswer
    ensures { PaintsGrey (adapter_at s.now vram.now xr.now) line pixels.old result.refusal
        pixels.new }
{
    paint_grey::paint_grey(s, vram, xr, line, pixels).into()
}
