// Runs of words inside one blit.
#![tactic(auto)]

ghost use Rattle.std.specs.Prelude.{◌≡◌, true, ◌≤◌, length};
ghost use Rattle.xosera.specs.Memories.{is_vram_length};
ghost use Rattle.xosera.specs.Blitter.{engine_left};
ghost use Rattle.engine_runs.specs.Progress.{Going, RanTo};

use engine::Blit;

// What a run inside one blit came to: all its steps and the blit as it goes on, or the blit's end and the rest of the steps.
#[derive(Clone, Copy)]
pub enum Ran {
    Midway(Blit),
    Over { rest: u64 },
}

// Up to n steps on words that are neither first nor last of their line, so that no edge mask is needed. The answer is the
// blit, and the rest of the steps.
fn run_inside(blit: Blit, vram: &mut [u16], n: u64) -> (Blit, u64)
    requires { is_vram_length (length vram.old) ≡ true }
    ensures { Going blit.engine vram.old n result.0.engine vram.new result.1 }
{
    let mut at = blit;
    for done in 0..n {
        if at.engine.word == 0 || engine::last_word(at.engine) {
            return (at, n - done);
        }
        let drawn = engine::draw(at.engine, vram);
        at = at.advance(drawn.word);
    }
    (at, 0)
}

// Up to n steps of a running blit. It stops at the blit's last word. A turn does many words, so no `for` counts them.
pub fn run_blit(blit: Blit, vram: &mut [u16], n: u64) -> Ran
    requires { is_vram_length (length vram.old) ≡ true }
    ensures { RanTo blit.engine vram.old n result vram.new }
{
    let mut at = blit;
    let mut rest = n;
    while rest > 0 {
        (at, rest) = run_inside(at, vram, rest);
        if rest == 0 {
            break;
        }
        let drawn = engine::draw(at.engine, vram);
        rest -= 1;
        if engine::last_step(at.engine) {
            return Ran::Over { rest };
        }
        at = at.advance(drawn.word);
    }
    Ran::Midway(at)
}

// The words left in a running blit, at most 32,768 lines of 65,536.
pub fn words_left(blit: Blit) -> u64
    ensures { (result ≡ engine_left blit.engine) × (result ≤ 0x80000000) }
{
    let e = blit.engine;
    let whole = e.regs.words as u64 + 1;
    (whole - e.word as u64) + (e.regs.lines as u64 - e.line as u64) * whole
}
