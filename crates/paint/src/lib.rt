// Paints a scanline of playfield A: the border on both sides of the window, and inside it the pixels of a row.
#![tactic(auto)]

ghost use Rattle.std.specs.Prelude.{◌≡◌, ℕ, ◌<◌, ◌≤◌, true, false, length, bit_xor, slice_index};
ghost use Rattle.xosera.specs.State.{state_at};
ghost use Rattle.xosera.specs.Fields.{colour_base, is_blank};
ghost use Rattle.xosera.specs.Memories.{is_vram_length};
ghost use Rattle.xosera.specs.Adapter.{adapter_at};
ghost use Rattle.xosera.specs.Told.{refused};
ghost use Rattle.calls.specs.Refusals.{first};
ghost use Rattle.scanline.specs.Scanline.{playfield_a, row_start, colour_index, across, painted};
ghost use Rattle.scanline.specs.PaintCall.{not_paintable, paint_tests, Paints};

use row_pixels::Picture;
use scanline::{Playfield, SCREEN_WIDTH};
use xosera::{
    COLOUR_MEMORY, PLAYFIELD_A, Refusal, StateWords, VID_CTRL, VID_LEFT, VID_RIGHT, VISIBLE_LINES,
    VramAddr, XrWords,
};

// What painting takes of the state. As a `From` it would stand in crate `scanline`, which reads no state.
#[tactic(auto, unfolding(scanline::specs::Scanline::playfield_a, xosera::specs::State::state_at))]
fn playfield_a(s: &StateWords) -> Playfield
    ensures { result ≡ playfield_a (state_at s.now).video }
{
    let border = fields::border_index(s[VID_CTRL]);
    let address = VramAddr(s[PLAYFIELD_A + 2]);
    Playfield {
        border,
        left: s[VID_LEFT],
        right: s[VID_RIGHT],
        gfx: s[PLAYFIELD_A],
        address,
        length: s[PLAYFIELD_A + 3],
    }
}

// Whether playfield A cannot be painted.
#[tactic(auto, unfolding(scanline::specs::PaintCall::not_paintable))]
fn not_paintable(p: Playfield) -> bool
    ensures { result ≡ not_paintable p }
{
    !fields::is_blank(p.gfx)
        && (!fields::is_bitmap(p.gfx) || !matches!(fields::pixel_depth(p.gfx), 1 | 2))
}

// Refusals 11 to 13.
#[tactic(auto, unfolding(calls::specs::Refusals::first, scanline::specs::PaintCall::bad_line, scanline::specs::PaintCall::other_width))]
fn paint_refusal(p: Playfield, line: u32, n: usize) -> Result<(), Refusal>
    ensures { refused result ≡ first (paint_tests p line n) }
{
    if not_paintable(p) {
        return Err(Refusal::NoBitmap);
    }
    if line >= VISIBLE_LINES as u32 {
        return Err(Refusal::NoLine);
    }
    if n != SCREEN_WIDTH {
        return Err(Refusal::PixelsLength);
    }
    Ok(())
}

// Where the row of a line starts.
#[tactic(auto, unfolding(scanline::specs::Scanline::row_start, xosera::specs::Words::wrap))]
fn row_start(p: Playfield, line: u32) -> VramAddr
    ensures { result.0 ≡ row_start p line }
{
    let row = line / fields::v_repeat(p.gfx) as u32;
    let offset = row.wrapping_mul(p.length as u32) % 65536;
    VramAddr(p.address.0.wrapping_add(offset as u16))
}

// A blank line, of as many words as are lent.
fn paint_blank(p: Playfield, colours: &[u16; 256], pixels: &mut [u16])
    ensures { pixels.new ≡ across (length pixels.old)
        (λ (x : ℕ). slice_index colours.now (bit_xor p.border (colour_base p.gfx))) }
{
    pixels.fill(row_pixels::colour(colours, p.border ^ fields::colour_base(p.gfx)));
}

// A line that is not blank: border, window, border. The window ends with the line at the latest.
fn paint_lit(picture: &Picture, line: u32, pixels: &mut [u16])
    requires { is_blank picture.now.playfield.gfx ≡ false }
    ensures { pixels.new ≡ across (length pixels.old)
        (λ (x : ℕ). slice_index picture.now.colours.now (colour_index picture.now.playfield picture.now.vram.now line x)) }
{
    let p = picture.playfield;
    let width = pixels.len();
    let right = (p.right as usize).min(width);
    let left = (p.left as usize).min(right);
    let border = row_pixels::colour(picture.colours, p.border);
    row_pixels::fill(pixels, 0, left, border);
    picture.paint_window(row_start(p, line), pixels, left, right);
    row_pixels::fill(pixels, right, width, border);
}

// A line of as many words as are lent, with the colours of the first half of colour memory.
fn paint_line(playfield: Playfield, vram: &[u16], xr: &XrWords, line: u32, pixels: &mut [u16])
    requires { is_vram_length (length vram.now) ≡ true }
    ensures { pixels.new ≡ painted (length pixels.old) playfield vram.now xr.now line }
{
    let colours = xr[COLOUR_MEMORY..COLOUR_MEMORY + 256].as_array().unwrap();
    if fields::is_blank(playfield.gfx) {
        paint_blank(playfield, colours, pixels);
    } else {
        let picture = Picture {
            playfield,
            vram,
            colours,
        };
        paint_lit(&picture, line, pixels);
    }
}

// Paints a line: refusals 1 to 3, then 11 to 13. A memory of another length is refused, so both are lent as slices.
pub fn paint(
    s: &StateWords,
    vram: &[u16],
    xr: &[u16],
    line: u32,
    pixels: &mut [u16],
) -> Result<(), Refusal>
    ensures { Paints (adapter_at s.now vram.now xr.now) line pixels.old (refused result) pixels.new }
{
    refusals::tested_refusal(s, vram.len(), xr.len())?;
    let p = playfield_a(s);
    paint_refusal(p, line, pixels.len())?;
    paint_line(p, vram, xr.as_array().unwrap(), line, pixels);
    Ok(())
}
