// The video beam on the words of the state: one pixel on, and the positions that copper instructions ask for. That the beam is in range
// is a fact of the lent state, as VRAM's length is of VRAM, and required: a struct round what is lent loses it (crate vram).
#![tactic(auto)]

ghost use Rattle.std.specs.Prelude.{◌≡◌, true, List, ℕ};
ghost use Rattle.xosera.specs.State.{state_at};
ghost use Rattle.xosera.specs.Fields.{wait_line, wait_pixel};
ghost use Rattle.xosera.specs.Beam.{frame};
ghost use Rattle.xosera.specs.Plan.{Performs};
ghost use Rattle.xosera.specs.Copper.{pixel_reached, place_reached, position_reached};
ghost use Rattle.xosera.specs.Ranges.{beam_in_range};
ghost use Rattle.beam.specs.Arrival.{arrival, line_arrival};

use xosera::{
    BEAM_LINE, BEAM_POSITION, COPP_CTRL, COPPER_RUNNING, COPPER_WORD, FRAME_BLANK, FRAME_ENDED,
    FRAME_LINES, FRAME_POSITIONS, STATUS, StateWords, VISIBLE_LINES,
};

// The two words of a copper instruction.
#[derive(Clone, Copy)]
pub struct Instruction {
    pub first: u16,
    pub second: u16,
}

impl Instruction {
    // Whether the beam's pixel is at least X, of the second word.
    #[tactic(auto, unfolding(xosera::specs::State::state_at, xosera::specs::Copper::pixel_reached))]
    fn pixel_reached(self, s: &StateWords) -> bool
        ensures { result ≡ pixel_reached frame (state_at s.now).beam (wait_pixel self.second) }
    {
        FRAME_BLANK + fields::wait_pixel(self.second) <= s[BEAM_POSITION]
    }

    // Whether the beam has reached line Y, of the first word, and pixel X.
    #[tactic(auto, using(std::proofs::lemmas::Bool::Decides::nat_tests), unfolding(xosera::specs::State::state_at, xosera::specs::Copper::place_reached))]
    fn place_reached(self, s: &StateWords) -> bool
        ensures { result ≡ place_reached frame (state_at s.now).beam (wait_line self.first) (wait_pixel self.second) }
    {
        let line = s[BEAM_LINE];
        let y = fields::wait_line(self.first);
        line > y || line == y && self.pixel_reached(s)
    }
}

// The next line at its first position: line 0 sets an enabled copper running at word 0, line 480 is the frame end.
fn next_line(s: &mut StateWords)
    requires { beam_in_range frame (state_at s.old).beam ≡ true }
    ensures { (v x : List ℕ) → Performs line_arrival s.old v x s.new v x }
{
    let line = s[BEAM_LINE] + 1;
    let status = s[STATUS];
    let enabled = fields::copper_enabled(s[COPP_CTRL]);
    s[BEAM_POSITION] = 0;
    match line {
        FRAME_LINES => {
            s[BEAM_LINE] = 0;
            if enabled {
                s[COPPER_RUNNING] = 1;
                s[COPPER_WORD] = 0;
            }
        }
        VISIBLE_LINES => {
            s[BEAM_LINE] = line;
            s[STATUS] = status | FRAME_ENDED;
        }
        _ => s[BEAM_LINE] = line,
    }
}

// One pixel on.
pub fn arrive(s: &mut StateWords)
    requires { beam_in_range frame (state_at s.old).beam ≡ true }
    ensures { (v x : List ℕ) → Performs arrival s.old v x s.new v x }
{
    let position = s[BEAM_POSITION] + 1;
    if position == FRAME_POSITIONS {
        next_line(s);
    } else {
        s[BEAM_POSITION] = position;
    }
}

// Whether the position of a WAIT or SKIP is reached; `both` is the answer where it ignores both axes, as in the definition.
#[tactic(auto, unfolding(xosera::specs::State::state_at, xosera::specs::Copper::line_reached, xosera::specs::Copper::position_reached))]
pub fn position_reached(s: &StateWords, both: bool, asked: Instruction) -> bool
    ensures { result ≡ position_reached both frame (state_at s.now).beam asked.first asked.second }
{
    match (
        fields::ignores_line(asked.second),
        fields::ignores_pixel(asked.second),
    ) {
        (true, true) => both,
        (true, false) => asked.pixel_reached(s),
        (false, true) => s[BEAM_LINE] >= fields::wait_line(asked.first),
        (false, false) => asked.place_reached(s),
    }
}
