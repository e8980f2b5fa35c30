// A list of events played through the public calls, each given what the one before it left.
#![tactic(auto)]

ghost use Rattle.std.specs.Prelude.{◌≡◌, List, ℕ, length};
ghost use Rattle.xosera.specs.Adapter.{adapter_at};
ghost use Rattle.xosera.specs.Events.{write, read, tick, beam, line, call, step, run};
ghost use Rattle.calls.specs.Promises.{Does};
ghost use Rattle.sequence.specs.Played.{event_of, of_event, of_events, of_gave, of_answers, Played};

use xosera::{Done, Refusal, StateWords};

// An event: a call, a blit step, or a run of up to so many (specs/Played.antt).
#[derive(Clone, Copy)]
pub enum Event {
    Write { reg: u8, odd: bool, byte: u8 },
    Read { reg: u8, odd: bool },
    Tick,
    Beam,
    Line,
    Step,
    Run(u64),
}

// Each kind has a number: 0 and 1 write a byte, even and odd; 2 and 3 read one; 4 a timer tick; 5 a beam step; 6 the line question; 7 a
// blit step; from 8 on a run. An access's argument is register + 256 x byte, a run's is n. `play` once read such pairs, and this keeps that
// reading by numbers (definition `event_of`).
impl From<(u8, u64)> for Event {
    ghost from_gives = { λ number event. of_event event ≡ event_of number.0 number.1 };

    #[tactic(auto, unfolding(crate::specs::Played::event_of))]
    fn from(number: (u8, u64)) -> Event {
        let (kind, arg) = number;
        let reg = (arg % 256) as u8;
        let byte = (arg / 256 % 256) as u8;
        match kind {
            0 => Event::Write {
                reg,
                odd: false,
                byte,
            },
            1 => Event::Write {
                reg,
                odd: true,
                byte,
            },
            2 => Event::Read { reg, odd: false },
            3 => Event::Read { reg, odd: true },
            4 => Event::Tick,
            5 => Event::Beam,
            6 => Event::Line,
            7 => Event::Step,
            _ => Event::Run(arg),
        }
    }
}

// What an event that is not refused gives: a number, and the nibbles of VRAM that it wrote last. It is the definition `Answer` (crate
// xosera, specs/Events.antt) without its refusal, which the `Result` has.
#[derive(Clone, Copy)]
pub struct Gave {
    pub value: u64,
    pub mask: u8,
}

// Blit steps give how many were done.
impl From<Done> for Gave {
    ghost from_gives = { λ done gave. (gave.value ≡ done.count) × (gave.mask ≡ done.mask) };

    fn from(done: Done) -> Gave {
        Gave {
            value: done.count,
            mask: done.mask,
        }
    }
}

// One event.
pub fn apply(
    s: &mut StateWords,
    vram: &mut [u16],
    xr: &mut [u16],
    event: Event,
) -> Result<Gave, Refusal>
    ensures { Does (adapter_at s.old vram.old xr.old) (of_event event) (of_gave result)
        (adapter_at s.new vram.new xr.new) }
{
    Ok(match event {
        Event::Write { reg, odd, byte } => {
            let mask = adapter::write_byte(s, vram, xr, reg, odd, byte)?;
            Gave { value: 0, mask }
        }
        Event::Read { reg, odd } => Gave {
            value: adapter::read_byte(s, vram, xr, reg, odd)? as u64,
            mask: 0,
        },
        Event::Tick => {
            adapter_steps::timer_tick(s)?;
            Gave { value: 0, mask: 0 }
        }
        Event::Beam => {
            adapter_steps::beam_step(s, vram, xr)?;
            Gave { value: 0, mask: 0 }
        }
        Event::Line => Gave {
            value: adapter::interrupt_line(s)? as u64,
            mask: 0,
        },
        Event::Step => adapter_steps::blit_step(s, vram, xr)?.into(),
        Event::Run(n) => adapter_steps::blit_run(s, vram, xr, n)?.into(),
    })
}

// A list of events, one after another; each one's answer goes to its place. The answers are a slice that the caller lends, since there is no
// heap, and written by index, since the invariant of a loop over a `zip` with `iter_mut` cannot name them.
pub fn play(
    s: &mut StateWords,
    vram: &mut [u16],
    xr: &mut [u16],
    events: &[Event],
    answers: &mut [Result<Gave, Refusal>],
)
    requires { length answers.old ≡ length events.now }
    ensures { Played (adapter_at s.old vram.old xr.old)
        (of_events events.now)
        (of_answers answers.new)
        (adapter_at s.new vram.new xr.new) }
{
    for (i, event) in events.iter().enumerate() {
        answers[i] = apply(s, vram, xr, *event);
    }
}
