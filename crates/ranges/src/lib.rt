// The ranges of the state, in three tests: the registers, the blitter, beam and copper. Every call that is lent a state makes all three,
// but reset, which takes any; a why and a grey are lent none. Each is short enough for the compiler to put it into every call, which all
// in one function are not. Sixteen latches and an idle engine are tested four words at once; the others word by word, because a read of
// four words waits for a store to any of them.
// Each test returns at once where it fails: with `&&` the compiler makes more of it in every call, and single steps took 17.4 ns against
// 15.8, byte writes 13.9 against 13.4.
#![tactic(auto)]

ghost use Rattle.std.specs.Prelude.{◌≡◌, [], ◌∷◌, ◌+◌, ◌<◌, eqb};
ghost use Rattle.xosera.specs.State.{word_at, state_at};
ghost use Rattle.xosera.specs.Ranges.{timer_in_range, are_bytes, running_in_range, idle_in_range, engine_in_range, copper_in_range};
ghost use Rattle.ranges.specs.Lanes.{Lanes};
ghost use Rattle.ranges.specs.RangeParts.{registers_in_range, blitter_in_range, beam_copper_in_range};

use xosera::{
    BEAM_LINE, BEAM_POSITION, COPP_CTRL, COPPER_RUNNING, COPPER_WORD, COUNTDOWN, ENGINE_CTRL,
    ENGINE_DST_D, ENGINE_KEPT, ENGINE_LINE, ENGINE_LINES, ENGINE_RUNNING, ENGINE_SRC_S,
    ENGINE_WORD, ENGINE_WORDS, FRAME_LINES, FRAME_POSITIONS, INT_MASK, INTERVAL, LATCHES, NIBBLES,
    PROGRAM, QUEUED, STATUS, StateWords, TIMER_SAVED,
};

// Four words as one number, the first lowest.
fn packed(a: u16, b: u16, c: u16, d: u16) -> u64
    ensures { Lanes a b c d result }
{
    a as u64 + b as u64 * 0x10000 + c as u64 * 0x100000000 + d as u64 * 0x1000000000000
}

// Four words that stand together. With the place as a parameter the compiler makes one read of this, and keeps it one
// where it puts the function into its callers.
fn four(s: &StateWords, k: usize) -> u64
    requires { k < 72 }
    ensures { Lanes (word_at s.now k) (word_at s.now (k + 1)) (word_at s.now (k + 2))
        (word_at s.now (k + 3)) result }
{
    packed(s[k], s[k + 1], s[k + 2], s[k + 3])
}

// Countdown 1 to its interval, or both 0.
#[tactic(auto, using(crate::proofs::RangeTests::tests), unfolding(xosera::specs::State::state_at, xosera::specs::Ranges::timer_in_range))]
fn timer_in_range(s: &StateWords) -> bool
    ensures { result ≡ timer_in_range (state_at s.now).host.timer }
{
    if s[COUNTDOWN] == s[INTERVAL] {
        return true;
    }
    if s[COUNTDOWN] == 0 {
        return false;
    }
    s[COUNTDOWN] < s[INTERVAL]
}

// The high bytes of four words that stand together: none where the words are bytes.
fn high_bytes(s: &StateWords, k: usize) -> u64
    requires { k < 72 }
    ensures { eqb result 0 ≡ are_bytes (word_at s.now k ∷ word_at s.now (k + 1) ∷ word_at s.now (k + 2)
        ∷ word_at s.now (k + 3) ∷ []) }
{
    four(s, k) & 0xFF00_FF00_FF00_FF00
}

// Sixteen latches that are bytes.
fn latches_in_range(s: &StateWords) -> bool
    ensures { result ≡ are_bytes (state_at s.now).host.latches }
{
    let low = high_bytes(s, LATCHES) | high_bytes(s, LATCHES + 4);
    let high = high_bytes(s, LATCHES + 8) | high_bytes(s, LATCHES + 12);
    (low | high) == 0
}

// The main registers and the interrupt status, in the order of the definitions.
#[tactic(auto, using(crate::proofs::RangeTests::tests), unfolding(xosera::specs::State::state_at, crate::specs::RangeParts::registers_in_range, xosera::specs::Ranges::host_in_range))]
pub fn registers_in_range(s: &StateWords) -> bool
    ensures { result ≡ registers_in_range (state_at s.now) }
{
    if s[NIBBLES] > 15 {
        return false;
    }
    if s[INT_MASK] > 127 {
        return false;
    }
    if !timer_in_range(s) {
        return false;
    }
    if s[TIMER_SAVED] > 255 {
        return false;
    }
    if !latches_in_range(s) {
        return false;
    }
    s[STATUS] <= 127
}

#[tactic(auto, using(crate::proofs::RangeTests::tests), unfolding(xosera::specs::State::state_at, xosera::specs::Ranges::running_in_range, xosera::specs::Ranges::starts_empty, xosera::specs::Blitter::first_step))]
fn running_in_range(s: &StateWords) -> bool
    ensures { result ≡ running_in_range (state_at s.now).engine }
{
    if s[ENGINE_LINES] > 32767 {
        return false;
    }
    if s[ENGINE_LINE] > s[ENGINE_LINES] {
        return false;
    }
    if s[ENGINE_WORD] > s[ENGINE_WORDS] {
        return false;
    }
    if s[ENGINE_LINE] != 0 {
        return true;
    }
    if s[ENGINE_WORD] != 0 {
        return true;
    }
    s[ENGINE_KEPT] == 0
}

// The flag and thirteen words that are all 0. Two of them are read twice.
fn idle_in_range(s: &StateWords) -> bool
    ensures { result ≡ idle_in_range (state_at s.now).engine }
{
    let low = four(s, ENGINE_RUNNING) | four(s, ENGINE_CTRL);
    let high = four(s, ENGINE_SRC_S) | four(s, ENGINE_DST_D);
    (low | high) == 0
}

#[tactic(auto, using(crate::proofs::RangeTests::tests), unfolding(xosera::specs::State::state_at, xosera::specs::Ranges::engine_in_range))]
fn engine_in_range(s: &StateWords) -> bool
    ensures { result ≡ engine_in_range (state_at s.now).engine }
{
    if s[ENGINE_RUNNING] == 1 {
        running_in_range(s)
    } else {
        idle_in_range(s)
    }
}

// The queue and the engine.
#[tactic(auto, using(crate::proofs::RangeTests::tests), unfolding(xosera::specs::State::state_at, crate::specs::RangeParts::blitter_in_range))]
pub fn blitter_in_range(s: &StateWords) -> bool
    ensures { result ≡ blitter_in_range (state_at s.now) }
{
    if s[QUEUED] > s[ENGINE_RUNNING] {
        return false;
    }
    engine_in_range(s)
}

#[tactic(auto, using(crate::proofs::RangeTests::tests), unfolding(xosera::specs::State::state_at, xosera::specs::Ranges::copper_in_range))]
fn copper_in_range(s: &StateWords) -> bool
    ensures { result ≡ copper_in_range (state_at s.now).video.coppctrl (state_at s.now).beam }
{
    if s[COPPER_RUNNING] == 1 {
        if !fields::copper_enabled(s[COPP_CTRL]) {
            return false;
        }
        return s[COPPER_WORD] < PROGRAM;
    }
    if s[COPPER_RUNNING] != 0 {
        return false;
    }
    s[COPPER_WORD] == 0
}

// The beam and the copper.
#[tactic(auto, using(crate::proofs::RangeTests::tests), unfolding(xosera::specs::State::state_at, crate::specs::RangeParts::beam_copper_in_range, xosera::specs::Ranges::beam_in_range))]
pub fn beam_in_range(s: &StateWords) -> bool
    ensures { result ≡ beam_copper_in_range (state_at s.now) }
{
    if s[BEAM_LINE] >= FRAME_LINES {
        return false;
    }
    if s[BEAM_POSITION] >= FRAME_POSITIONS {
        return false;
    }
    copper_in_range(s)
}
