// The running blit and the queued one on the words of the state: a start, a step, a blit's end.
#![tactic(auto)]

ghost use Rattle.std.specs.Prelude.{◌≡◌, true, List, ℕ, min, length};
ghost use Rattle.xosera.specs.State.{is_set, state_at};
ghost use Rattle.xosera.specs.Memories.{is_vram_length};
ghost use Rattle.xosera.specs.Adapter.{adapter_at};
ghost use Rattle.xosera.specs.Blitter.{blit_started, blit_ended, succeeding, stepped, step_mask, words_left};
ghost use Rattle.xosera.specs.Ranges.{in_range};

use engine::Blit;
use xosera::{BLIT_DONE, Done, ENGINE_RUNNING, Engine, QUEUED, STATUS, StateWords};

// A blit is started on an idle engine, and queued on a running one. Both flags are words of the state, 1 or 0.
pub fn start(s: &mut StateWords)
    ensures { (v x : List ℕ) → adapter_at s.new v x ≡ blit_started (adapter_at s.old v x) }
{
    let was = s[ENGINE_RUNNING];
    s[QUEUED] = was;
    if was == 1 {
        return;
    }
    let blit = Blit::launch(engine_words::blit_regs(s));
    engine_words::put_engine(s, blit.engine);
}

// The engine after a blit's end: the queued blit's, if any.
#[tactic(auto, unfolding(xosera::specs::State::state_at, xosera::specs::Blitter::succeeding))]
fn successor(s: &StateWords) -> Engine
    ensures { result ≡ succeeding (is_set (state_at s.now).queued) (state_at s.now).blit }
{
    match engine_words::queued_blit(s) {
        Some(blit) => blit.engine,
        None => engine::idle_engine(),
    }
}

// A blit's end: status bit 6, and the queued blit started, if any.
pub fn end_blit(s: &mut StateWords)
    ensures { (v x : List ℕ) → adapter_at s.new v x ≡ blit_ended (adapter_at s.old v x) }
{
    let e = successor(s);
    s[STATUS] |= BLIT_DONE;
    s[QUEUED] = 0;
    engine_words::put_engine(s, e);
}

// One blit step.
pub fn step(s: &mut StateWords, vram: &mut [u16]) -> Done
    requires vram_value { is_vram_length (length vram.old) ≡ true }
    requires s_value { in_range (state_at s.old) ≡ true }
    ensures after { (x : List ℕ) → adapter_at s.new vram.new x ≡ stepped (adapter_at s.old vram.old x) }
    ensures count { (x : List ℕ) → result.count ≡ min 1 (words_left (adapter_at s.old vram.old x)) }
    ensures mask { (x : List ℕ) → result.mask ≡ step_mask (adapter_at s.old vram.old x) }
{
    let Some(blit) = engine_words::running_blit(s) else {
        return Done::default();
    };
    let drawn = engine::draw(blit.engine, vram);
    if engine::last_step(blit.engine) {
        end_blit(s);
    } else {
        engine_words::move_on(s, blit.advance(drawn.word).engine);
    }
    Done {
        count: 1,
        mask: words::gathered(drawn.bits),
    }
}
