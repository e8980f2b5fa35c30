// XM_TIMER: ticks, the countdown and the saved low byte.
#![tactic(auto)]

ghost use Rattle.std.specs.Prelude.{ℕ, false, List};
ghost use Rattle.xosera.specs.Adapter.{Side};
ghost use Rattle.xosera.specs.HostBytes.{write_timer, read_byte};
ghost use Rattle.xosera.specs.TimerTick as TimerTick;
ghost use Rattle.xosera.specs.Plan.{Performs};

use xosera::{COUNTDOWN, INTERVAL, STATUS, StateWords, TIMER, TIMER_EXPIRED, TIMER_SAVED};

// A tick: the timer goes up by 1, and a countdown that reaches 0 sets status bit 5 and starts again. What is needed is read before the
// first store, and so known as it was.
pub fn tick(s: &mut StateWords)
    ensures { (v x : List ℕ) → Performs TimerTick.tick s.old v x s.new v x }
{
    let countdown = s[COUNTDOWN];
    let interval = s[INTERVAL];
    let status = s[STATUS];
    s[TIMER] = s[TIMER].wrapping_add(1);
    match countdown {
        0 => {}
        1 => {
            s[COUNTDOWN] = interval;
            s[STATUS] = status | TIMER_EXPIRED;
        }
        _ => s[COUNTDOWN] = countdown - 1,
    }
}

// An odd write: the countdown and its interval.
pub fn set_countdown(s: &mut StateWords, w: u16)
    ensures { (v x : List ℕ) → Performs (λ (side : Side). write_timer side w) s.old v x s.new v x }
{
    s[COUNTDOWN] = w;
    s[INTERVAL] = w;
}

// An even read saves the timer's low byte.
#[tactic(auto, unfolding(xosera::specs::State::state_at, xosera::specs::Memories::stored, xosera::specs::Plan::changed, xosera::specs::Plan::perform, xosera::specs::HostBytes::timer_saved, xosera::specs::HostBytes::read_byte))]
pub fn save(s: &mut StateWords)
    ensures { (v x : List ℕ) → Performs (λ (side : Side). read_byte side 2 false) s.old v x s.new v x }
{
    s[TIMER_SAVED] = s[TIMER] % 256;
}
