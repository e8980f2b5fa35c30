// Runs of blit steps on the words of the state, through the running blit and the queued one. Each function asks for the ranges of
// the state and the length of VRAM by itself: a struct round what is lent would lose them after a borrow.
#![tactic(auto)]

ghost use Rattle.std.specs.Prelude.{◌≡◌, true, List, ℕ, min, length};
ghost use Rattle.xosera.specs.State.{state_at};
ghost use Rattle.xosera.specs.Memories.{is_vram_length};
ghost use Rattle.xosera.specs.Adapter.{adapter_at};
ghost use Rattle.xosera.specs.Blitter.{steps, nth_mask, words_left};
ghost use Rattle.xosera.specs.Ranges.{in_range};
ghost use Rattle.queue_runs.specs.OneBlit.{OneBlit};

use engine_runs::Ran;
use xosera::{Done, StateWords};

// Up to n steps of the running blit alone. The answer is the rest of the steps.
fn run_one(s: &mut StateWords, vram: &mut [u16], n: u64) -> u64
    requires vram_value { is_vram_length (length vram.old) ≡ true }
    requires s_value { in_range (state_at s.old) ≡ true }
    ensures { OneBlit (state_at s.old) vram.old n (state_at s.new) vram.new result }
{
    let Some(blit) = engine_words::running_blit(s) else {
        return n;
    };
    match engine_runs::run_blit(blit, vram, n) {
        Ran::Midway(going) => {
            engine_words::put_engine(s, going.engine);
            0
        }
        Ran::Over { rest } => {
            queue::end_blit(s);
            rest
        }
    }
}

// Up to n steps of the running blit and the queued one.
fn run_both(s: &mut StateWords, vram: &mut [u16], n: u64)
    requires vram_value { is_vram_length (length vram.old) ≡ true }
    requires s_value { in_range (state_at s.old) ≡ true }
    ensures { (x : List ℕ) → adapter_at s.new vram.new x ≡ steps n (adapter_at s.old vram.old x) }
{
    let rest = run_one(s, vram, n);
    if rest > 0 {
        run_one(s, vram, rest);
    }
}

// The words left in the running blit and the queued one.
fn words_left(s: &StateWords) -> u64
    requires { in_range (state_at s.now) ≡ true }
    ensures { (v x : List ℕ) → result ≡ words_left (adapter_at s.now v x) }
{
    let Some(blit) = engine_words::running_blit(s) else {
        return 0;
    };
    let left = engine_runs::words_left(blit);
    match engine_words::queued_blit(s) {
        Some(queued) => left + engine_runs::words_left(queued),
        None => left,
    }
}

// A run of up to n steps. All words but the last are done without their masks.
pub fn run(s: &mut StateWords, vram: &mut [u16], n: u64) -> Done
    requires vram_value { is_vram_length (length vram.old) ≡ true }
    requires s_value { in_range (state_at s.old) ≡ true }
    ensures after { (x : List ℕ) → adapter_at s.new vram.new x ≡ steps n (adapter_at s.old vram.old x) }
    ensures count { (x : List ℕ) → result.count ≡ min n (words_left (adapter_at s.old vram.old x)) }
    ensures mask { (x : List ℕ) → result.mask ≡ nth_mask result.count (adapter_at s.old vram.old x) }
{
    let count = n.min(words_left(s));
    if count == 0 {
        return Done::default();
    }
    run_both(s, vram, count - 1);
    let mask = match engine_words::running_blit(s) {
        Some(blit) => engine::next_mask(blit.engine, vram),
        None => 0,
    };
    run_both(s, vram, 1);
    Done { count, mask }
}
