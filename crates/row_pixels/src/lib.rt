// The pixels of a row of playfield A, painted to a part of a line.
#![tactic(auto)]

ghost use Rattle.std.specs.Prelude.{◌≡◌, ℕ, ◌<◌, ◌≤◌, true, length, slice_index};
ghost use Rattle.xosera.specs.Fields.{h_repeat};
ghost use Rattle.xosera.specs.Memories.{is_vram_length};
ghost use Rattle.scanline.specs.Scanline.{pixel_at, four_bits, pixels_in_word, pixel_index};
ghost use Rattle.row_pixels.specs.Fills.{Fills};
ghost use Rattle.row_pixels.specs.RowParts.{PaintsPixel, PaintsPixels, WindowPart, pixel_colour};

use scanline::Playfield;
use xosera::VramAddr;

// Whether a pixel has four bits. A depth is a number, as the definitions have it: 1 is four bits, 2 is eight.
pub fn four_bits(p: Playfield) -> bool
    ensures { result ≡ four_bits p }
{
    fields::pixel_depth(p.gfx) == 1
}

// The colour index that a word has for a pixel of its row.
fn pixel_index(p: Playfield, word: u16, pixel: u16) -> u8
    ensures { result ≡ pixel_index p word pixel }
{
    if four_bits(p) {
        return fields::colour_base(p.gfx) / 16 * 16 + ((word >> (12 - pixel % 4 * 4)) % 16) as u8;
    }
    ((word >> (8 - pixel % 2 * 8)) % 256) as u8
}

// One of the first 256 colours.
pub fn colour(colours: &[u16; 256], i: u8) -> u16
    ensures { result ≡ slice_index colours.now i }
{
    colours[i as usize]
}

// Fills a part of a line with one colour.
pub fn fill(pixels: &mut [u16], from: usize, to: usize, colour: u16)
    requires from_le_to { from ≤ to }
    requires to_in_bounds { to ≤ length pixels.old }
    ensures { Fills from to (λ (x : ℕ). colour) pixels.old pixels.new }
{
    pixels[from..to].fill(colour);
}

// What a line is painted from: the registers, VRAM, and the first half of colour memory. The pixels stand beside it, since a proof knows
// nothing of a slice that was lent to a struct for writing.
#[derive(Clone, Copy)]
pub struct Picture<'a> {
    pub playfield: Playfield,
    pub vram: &'a [u16],
    pub colours: &'a [u16; 256],
    pub ghost vram_value: { is_vram_length (length vram.now) ≡ true },
}

impl Picture<'_> {
    // Paints a pixel of a word as wide as it is, but not beyond the last of the pixels. It gives the place behind the pixel. For so few words
    // `fill` takes longer, and so does a `for` over the slice: in a copy in Rust a line of single pixels took twice as long by either.
    fn paint_pixel(&self, word: u16, pixel: u16, pixels: &mut [u16], x: usize) -> usize
        requires { x ≤ length pixels.old }
        ensures { PaintsPixel x (length pixels.old) (h_repeat self.now.playfield.gfx)
            (slice_index self.now.colours.now (pixel_index self.now.playfield word pixel)) result pixels.old pixels.new }
    {
        let colour = colour(self.colours, pixel_index(self.playfield, word, pixel));
        let end = (x + fields::h_repeat(self.playfield.gfx) as usize).min(pixels.len());
        for place in x..end {
            pixels[place] = colour;
        }
        end
    }

    // Paints the first pixels of a word of the row from a place on, and gives the place behind them.
    fn paint_pixels<const COUNT: u16>(&self, word: u16, pixels: &mut [u16], x: usize) -> usize
        requires { x ≤ length pixels.old }
        ensures { PaintsPixels self.now.playfield self.now.colours.now word COUNT x (length pixels.old) result pixels.old pixels.new }
    {
        let mut behind = x;
        for pixel in 0..COUNT {
            behind = self.paint_pixel(word, pixel, pixels, behind);
        }
        behind
    }

    // Paints the pixels of a word. With their number known as it compiles the compiler has no loop; counted by a variable it takes half as
    // long again.
    #[tactic(auto, unfolding(scanline::specs::Scanline::pixels_in_word))]
    fn paint_word(&self, word: u16, pixels: &mut [u16], x: usize) -> usize
        requires { x ≤ length pixels.old }
        ensures { PaintsPixels self.now.playfield self.now.colours.now word (pixels_in_word self.now.playfield) x (length pixels.old)
            result pixels.old pixels.new }
    {
        if four_bits(self.playfield) {
            self.paint_pixels::<4>(word, pixels, x)
        } else {
            self.paint_pixels::<2>(word, pixels, x)
        }
    }

    // Paints the part of the window that the line shows, word by word of the row. A turn goes on by what a word painted, and no index is
    // counted by one; by `chunks_mut` a proof would know nothing of the pixels.
    pub fn paint_window(&self, row: VramAddr, pixels: &mut [u16], from: usize, to: usize)
        requires { WindowPart self.now.playfield (length pixels.old) from to }
        ensures { Fills from to (λ (x : ℕ). pixel_colour self.now.playfield self.now.vram.now self.now.colours.now row.0
            (pixel_at self.now.playfield x)) pixels.old pixels.new }
    {
        let shown = &mut pixels[..to];
        let mut x = from;
        let mut at = row;
        while x < shown.len() {
            let word = vram::read_word(self.vram, at);
            x = self.paint_word(word, shown, x);
            at = VramAddr(at.0.wrapping_add(1));
        }
    }
}
