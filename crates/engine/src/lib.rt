// The blitter's engine: one word a step. It knows nothing of the host.
#![tactic(auto)]

ghost use Rattle.std.specs.Prelude.{◌≡◌, true, false, length, if◌then◌else◌};
ghost use Rattle.xosera.specs.Words.{wrap};
ghost use Rattle.xosera.specs.Memories.{is_vram_length};
ghost use Rattle.xosera.specs.Blitter.{idle, launched, is_constant, fetched, sourced, last_word, first_mask, last_mask};
ghost use Rattle.xosera.specs.Blitter.{test_mask, write_mask, drawing, last_step, next_source, next_dest, next};
ghost use Rattle.xosera.specs.Ranges.{Running};
ghost use Rattle.words.specs.Spread.{spread};
ghost use Rattle.engine.specs.Drawing.{DrewOne};

use xosera::{BlitRegs, Engine, VramAddr};

pub fn idle_engine() -> Engine
    ensures { result ≡ idle }
{
    Engine::default()
}

// A running blit: an engine that is fit to go on.
#[derive(Clone, Copy)]
pub struct Blit {
    pub engine: Engine,
    ghost running: { Running engine },
}

impl Blit {
    // A blit starts with a copy of the registers.
    #[tactic(auto, unfolding(xosera::specs::Blitter::launched))]
    pub fn launch(regs: BlitRegs) -> Blit
        ensures { result.engine ≡ launched regs }
    {
        let regs = BlitRegs {
            lines: regs.lines % 32768,
            ..regs
        };
        Blit {
            engine: Engine {
                running: 1,
                line: 0,
                word: 0,
                kept: 0,
                regs,
            },
        }
    }

    // The blit after a word that is not its last.
    #[tactic(auto, unfolding(xosera::specs::Blitter::next, xosera::specs::Blitter::last_step, xosera::specs::Blitter::last_word))]
    pub fn advance(self, word: u16) -> Blit
        requires { last_step self.engine ≡ false }
        ensures { result.engine ≡ next self.engine word }
    {
        let e = self.engine;
        let regs = BlitRegs {
            srcs: next_source(e),
            dstd: next_dest(e),
            ..e.regs
        };
        let moved = Engine {
            kept: word,
            regs,
            ..e
        };
        let engine = if last_word(e) {
            Engine {
                line: e.line + 1,
                word: 0,
                ..moved
            }
        } else {
            Engine {
                word: e.word + 1,
                ..moved
            }
        };
        Blit { engine }
    }
}

#[tactic(auto, unfolding(xosera::specs::Blitter::last_word))]
pub fn last_word(e: Engine) -> bool
    ensures { result ≡ last_word e }
{
    e.word == e.regs.words
}

// The blit's last word.
#[tactic(auto, unfolding(xosera::specs::Blitter::last_step))]
pub fn last_step(e: Engine) -> bool
    ensures { result ≡ last_step e }
{
    last_word(e) && e.line == e.regs.lines
}

#[tactic(auto, unfolding(xosera::specs::Blitter::is_constant))]
fn is_constant(e: Engine) -> bool
    ensures { result ≡ is_constant e }
{
    fields::constant_source(e.regs.ctrl)
}

// The first mask on a line's first word.
#[tactic(auto, unfolding(xosera::specs::Blitter::first_mask))]
pub fn first_mask(e: Engine) -> u16
    ensures { result ≡ first_mask e }
{
    if e.word == 0 {
        fields::first_edge(e.regs.shift)
    } else {
        15
    }
}

// The last mask on a line's last word.
#[tactic(auto, unfolding(xosera::specs::Blitter::last_mask))]
pub fn last_mask(e: Engine) -> u16
    ensures { result ≡ last_mask e }
{
    if last_word(e) {
        fields::last_edge(e.regs.shift)
    } else {
        15
    }
}

// The colour test as a spread mask, if it is asked for.
#[tactic(auto, unfolding(xosera::specs::Blitter::test_mask, words::specs::Spread::spread, xosera::specs::Words::bit))]
pub fn test_bits(e: Engine, s: u16) -> u16
    ensures { result ≡ spread (test_mask e s) }
{
    let ctrl = e.regs.ctrl;
    if fields::colour_tested(ctrl) {
        words::colour_bits(fields::whole_bytes(ctrl), fields::test_colour(ctrl), s)
    } else {
        0xFFFF
    }
}

// The nibbles that a step writes, as a spread mask.
fn write_bits(e: Engine, s: u16) -> u16
    ensures { result ≡ spread (write_mask e s) }
{
    words::spread(first_mask(e) & last_mask(e)) & test_bits(e, s)
}

// The word that a step takes: the VRAM word at the source address, or none of a constant.
#[tactic(auto, unfolding(xosera::specs::Blitter::fetched))]
fn fetch(e: Engine, vram: &[u16]) -> u16
    requires { is_vram_length (length vram.now) ≡ true }
    ensures { result ≡ fetched e vram.now }
{
    if is_constant(e) {
        return 0;
    }
    vram::read_word(vram, VramAddr(e.regs.srcs))
}

// S: the constant, or the word taken, through the shifter.
#[tactic(auto, unfolding(xosera::specs::Blitter::sourced))]
pub fn source(e: Engine, word: u16) -> u16
    ensures { result ≡ sourced e word }
{
    if is_constant(e) {
        e.regs.srcs
    } else {
        words::shifted(e.regs.shift, e.kept, word)
    }
}

// The nibbles that the next step writes.
pub fn next_mask(e: Engine, vram: &[u16]) -> u8
    requires { is_vram_length (length vram.now) ≡ true }
    ensures { result ≡ (drawing e (fetched e vram.now)).mask }
{
    let word = fetch(e, vram);
    words::gathered(write_bits(e, source(e, word)))
}

// What drawing a word came to: the word taken, and the nibbles written, as a spread mask.
#[derive(Clone, Copy)]
pub struct Drawn {
    pub word: u16,
    pub bits: u16,
}

// One word drawn, inlined into the loops over words, which are three times as slow round a call.
#[inline]
#[tactic(auto, unfolding(xosera::specs::Blitter::drawn, xosera::specs::Blitter::drawing))]
pub fn draw(e: Engine, vram: &mut [u16]) -> Drawn
    requires { is_vram_length (length vram.old) ≡ true }
    ensures { DrewOne e vram.old result vram.new }
{
    let word = fetch(e, vram);
    let s = source(e, word);
    let value = words::combined(s, e.regs.andc, e.regs.xor);
    let bits = write_bits(e, s);
    vram::store_bits(vram, VramAddr(e.regs.dstd), bits, value);
    Drawn { word, bits }
}

// The source goes up by 1 unless it is a constant.
#[tactic(auto, unfolding(xosera::specs::Words::wrap))]
fn source_up(e: Engine) -> u16
    ensures { result ≡ (if is_constant e then e.regs.srcs else wrap e.regs.srcs 1) }
{
    if is_constant(e) {
        e.regs.srcs
    } else {
        e.regs.srcs.wrapping_add(1)
    }
}

#[tactic(auto, unfolding(xosera::specs::Blitter::next_source, xosera::specs::Words::wrap))]
fn next_source(e: Engine) -> u16
    ensures { result ≡ next_source e }
{
    let src = source_up(e);
    if last_word(e) {
        src.wrapping_add(e.regs.mods)
    } else {
        src
    }
}

#[tactic(auto, unfolding(xosera::specs::Blitter::next_dest, xosera::specs::Words::wrap))]
fn next_dest(e: Engine) -> u16
    ensures { result ≡ next_dest e }
{
    let dst = e.regs.dstd.wrapping_add(1);
    if last_word(e) {
        dst.wrapping_add(e.regs.modd)
    } else {
        dst
    }
}
