// The engine and the blitter's registers, between the words of the state and the structs that the engine's functions take.
#![tactic(auto)]

ghost use Rattle.std.specs.Prelude.{◌≡◌, true, false, ◌+◌, ◌≤◌, MatchOption};
ghost use Rattle.xosera.specs.State.{is_set, state_words, regs_from, word_at, state_at};
ghost use Rattle.xosera.specs.Blitter.{launched};
ghost use Rattle.xosera.specs.Ranges.{in_range};
ghost use Rattle.engine_words.specs.Held.{with_engine, moving};

use engine::Blit;
use xosera::{
    BLIT_REGS, BlitRegs, ENGINE_ANDC, ENGINE_CTRL, ENGINE_DST_D, ENGINE_KEPT, ENGINE_LINE,
    ENGINE_LINES, ENGINE_MOD_D, ENGINE_MOD_S, ENGINE_RUNNING, ENGINE_SHIFT, ENGINE_SRC_S,
    ENGINE_WORD, ENGINE_WORDS, ENGINE_XOR, Engine, QUEUED, StateWords,
};

// Ten registers from a place on.
fn regs_from(s: &StateWords, at: usize) -> BlitRegs
    requires { at + 10 ≤ state_words }
    ensures { result ≡ regs_from at (word_at s.now) }
{
    let &[ctrl, andc, xor, mods, srcs, modd, dstd, shift, lines, words] = &s[at..at + 10] else {
        unreachable!()
    };
    BlitRegs {
        ctrl,
        andc,
        xor,
        mods,
        srcs,
        modd,
        dstd,
        shift,
        lines,
        words,
    }
}

// The registers as the host wrote them.
#[tactic(auto, unfolding(xosera::specs::State::state_at))]
pub fn blit_regs(s: &StateWords) -> BlitRegs
    ensures { result ≡ (state_at s.now).blit }
{
    regs_from(s, BLIT_REGS)
}

// The engine, running or idle.
#[tactic(auto, unfolding(xosera::specs::State::state_at))]
pub fn engine_of(s: &StateWords) -> Engine
    ensures { result ≡ (state_at s.now).engine }
{
    Engine {
        running: s[ENGINE_RUNNING],
        line: s[ENGINE_LINE],
        word: s[ENGINE_WORD],
        kept: s[ENGINE_KEPT],
        regs: regs_from(s, ENGINE_CTRL),
    }
}

// The running blit, if one runs.
#[tactic(auto, unfolding(xosera::specs::State::state_at))]
pub fn running_blit(s: &StateWords) -> Option<Blit>
    requires { in_range (state_at s.now) ≡ true }
    ensures { MatchOption result (is_set (state_at s.now).engine.running ≡ false) (λ blit. blit.engine ≡ (state_at s.now).engine) }
{
    if s[ENGINE_RUNNING] != 1 {
        return None;
    }
    Some(Blit {
        engine: engine_of(s),
    })
}

// The queued blit, if one is queued: a launch of the registers as they now are.
#[tactic(auto, unfolding(xosera::specs::State::state_at))]
pub fn queued_blit(s: &StateWords) -> Option<Blit>
    ensures { MatchOption result (is_set (state_at s.now).queued ≡ false)
        (λ blit. (is_set (state_at s.now).queued ≡ true) × (blit.engine ≡ launched (state_at s.now).blit)) }
{
    if s[QUEUED] != 1 {
        return None;
    }
    Some(Blit::launch(blit_regs(s)))
}

// All words of an engine. Each is put by its name, since an array of them would name each field too, and not its place.
pub fn put_engine(s: &mut StateWords, e: Engine)
    ensures { state_at s.new ≡ with_engine (state_at s.old) e }
{
    s[ENGINE_RUNNING] = e.running;
    s[ENGINE_LINE] = e.line;
    s[ENGINE_WORD] = e.word;
    s[ENGINE_KEPT] = e.kept;
    s[ENGINE_CTRL] = e.regs.ctrl;
    s[ENGINE_ANDC] = e.regs.andc;
    s[ENGINE_XOR] = e.regs.xor;
    s[ENGINE_MOD_S] = e.regs.mods;
    s[ENGINE_SRC_S] = e.regs.srcs;
    s[ENGINE_MOD_D] = e.regs.modd;
    s[ENGINE_DST_D] = e.regs.dstd;
    s[ENGINE_SHIFT] = e.regs.shift;
    s[ENGINE_LINES] = e.regs.lines;
    s[ENGINE_WORDS] = e.regs.words;
}

// The words that a step inside a blit moves on: line, word, kept word, source and destination.
pub fn move_on(s: &mut StateWords, e: Engine)
    ensures { state_at s.new ≡ with_engine (state_at s.old) (moving (state_at s.old).engine e) }
{
    s[ENGINE_LINE] = e.line;
    s[ENGINE_WORD] = e.word;
    s[ENGINE_KEPT] = e.kept;
    s[ENGINE_SRC_S] = e.regs.srcs;
    s[ENGINE_DST_D] = e.regs.dstd;
}
