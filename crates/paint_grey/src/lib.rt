// Paints a scanline of playfield A in grey levels.
#![tactic(auto)]

ghost use Rattle.xosera.specs.Adapter.{adapter_at};
ghost use Rattle.xosera.specs.Told.{refused};
ghost use Rattle.paint_grey.specs.GreyLine.{PaintsGrey};

use xosera::{Refusal, StateWords};

// Paints a line, then takes each word to its level. It is refused as painting is.
pub fn paint_grey(
    s: &StateWords,
    vram: &[u16],
    xr: &[u16],
    line: u32,
    pixels: &mut [u16],
) -> Result<(), Refusal>
    ensures { PaintsGrey (adapter_at s.now vram.now xr.now) line pixels.old (refused result)
        pixels.new }
{
    paint::paint(s, vram, xr, line, pixels)?;
    grey::grey_words(pixels);
    Ok(())
}
