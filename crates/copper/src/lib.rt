// The copper, and the beam step that it works in.
#![tactic(auto)]

ghost use Rattle.std.specs.Prelude.{◌≡◌, ℕ, ◌<◌, ◌≤◌, Bool, true, ◌&&◌, List, slice_index_or};
ghost use Rattle.xosera.specs.State.{is_set, state_at};
ghost use Rattle.xosera.specs.Fields.{opcode};
ghost use Rattle.xosera.specs.Beam.{frame};
ghost use Rattle.xosera.specs.Adapter.{Side};
ghost use Rattle.xosera.specs.Plan.{quiet, Performs};
ghost use Rattle.xosera.specs.Copper.{copper_at, copper_on, wait, skip, move, pass, instructions, program_at, instruction, beam_step};
ghost use Rattle.xosera.specs.Ranges.{beam_in_range};
ghost use Rattle.copper.specs.Opcodes.{named};

use beam::Instruction;
use xosera::{COPPER_MEMORY, COPPER_RUNNING, COPPER_WORD, PROGRAM, StateWords, XrAddr, XrWords};

// What an instruction is, by its first word.
#[derive(Clone, Copy)]
enum Opcode {
    Wait,
    Skip,
    Jump,
    Mover,
    Movef,
    Movep,
    Movec,
    Pass,
}

impl Opcode {
    fn of(first: u16) -> Opcode
        ensures { named result ≡ slice_index_or instructions (opcode first) pass }
    {
        match fields::opcode(first) {
            0 => Opcode::Wait,
            1 => Opcode::Skip,
            2 => Opcode::Jump,
            3 => Opcode::Mover,
            4 => Opcode::Movef,
            5 => Opcode::Movep,
            6 => Opcode::Movec,
            _ => Opcode::Pass,
        }
    }
}

// A word of the program.
#[tactic(auto, unfolding(xosera::specs::Copper::program_at))]
fn program_word(xr: &XrWords, k: u16) -> u16
    ensures { result ≡ program_at xr.now k }
{
    xr[COPPER_MEMORY + (k % PROGRAM) as usize]
}

// The copper at a word of its program.
#[tactic(auto, unfolding(xosera::specs::State::state_at, xosera::specs::Memories::stored, xosera::specs::Plan::changed, xosera::specs::Plan::perform, xosera::specs::Copper::copper_at))]
fn jump(s: &mut StateWords, k: u16)
    ensures { (v x : List ℕ) → Performs (λ (side : Side). quiet (copper_at side k)) s.old v x s.new v x }
{
    s[COPPER_WORD] = k % PROGRAM;
}

// The copper n words on.
#[tactic(auto, unfolding(xosera::specs::State::state_at, xosera::specs::Memories::stored, xosera::specs::Plan::changed, xosera::specs::Plan::perform, xosera::specs::Copper::copper_at))]
fn go_on(s: &mut StateWords, n: u16)
    ensures { (v x : List ℕ) → Performs (λ (side : Side). quiet (copper_on side n)) s.old v x s.new v x }
{
    s[COPPER_WORD] = s[COPPER_WORD].wrapping_add(n) % PROGRAM;
}

// WAIT.
#[tactic(auto, unfolding(xosera::specs::Memories::stored, xosera::specs::Plan::changed, xosera::specs::Plan::perform))]
fn wait(s: &mut StateWords, words: Instruction)
    ensures { (full : Bool) (v x : List ℕ) → Performs (λ (side : Side). wait full side words.first words.second) s.old v x s.new v x }
{
    if beam::position_reached(s, false, words) {
        go_on(s, 2);
    }
}

// SKIP.
fn skip(s: &mut StateWords, words: Instruction)
    ensures { (full : Bool) (v x : List ℕ) → Performs (λ (side : Side). skip full side words.first words.second) s.old v x s.new v x }
{
    if beam::position_reached(s, true, words) {
        go_on(s, 4);
    } else {
        go_on(s, 2);
    }
}

// A move to a memory.
fn move_memory(s: &mut StateWords, xr: &mut XrWords, a: XrAddr, w: u16)
    requires { 0x4000 ≤ a.0 }
    ensures { (full : Bool) (v : List ℕ) → Performs (λ (side : Side). move full side a.0 w) s.old v xr.old s.new v
        xr.new }
{
    go_on(s, 2);
    xr_memory::store(xr, a, w);
}

// A move to a register: dropped on a full blitter, else what a host's word to that address does.
fn move_register(s: &mut StateWords, a: u16, w: u16)
    requires { a < 0x4000 }
    ensures { (v x : List ℕ) → Performs (λ (side : Side). move (is_set (state_at s.old).queued) side a w) s.old v x
        s.new v x }
{
    let dropped = xr_memory::reaches_full(s, a);
    go_on(s, 2);
    if !dropped {
        xr_port::write_register(s, a, w);
    }
}

// One instruction: the two words from the copper's word on.
fn instruction(s: &mut StateWords, xr: &mut XrWords)
    ensures { (v : List ℕ) → Performs (instruction (is_set (state_at s.old).queued)) s.old v xr.old s.new v
        xr.new }
{
    let k = s[COPPER_WORD];
    let first = program_word(xr, k);
    let second = program_word(xr, k.wrapping_add(1));
    let words = Instruction { first, second };
    match Opcode::of(first) {
        Opcode::Wait => wait(s, words),
        Opcode::Skip => skip(s, words),
        Opcode::Jump => jump(s, fields::jump_word(first)),
        Opcode::Mover => move_register(s, fields::register_number(first), second),
        Opcode::Movef => move_memory(s, xr, XrAddr(0x4000 + fields::tile_word(first)), second),
        Opcode::Movep => move_memory(s, xr, XrAddr(0x8000 + fields::colour_word(first)), second),
        Opcode::Movec => move_memory(s, xr, XrAddr(0xC000 + fields::program_word(first)), second),
        Opcode::Pass => go_on(s, 2),
    }
}

// A beam step: the beam one pixel on, then an instruction of a running copper.
pub fn beam_step(s: &mut StateWords, xr: &mut XrWords)
    requires { beam_in_range frame (state_at s.old).beam ≡ true }
    ensures { (v : List ℕ) → Performs (beam_step (is_set (state_at s.old).queued)) s.old v xr.old s.new v
        xr.new }
{
    beam::arrive(s);
    if s[COPPER_RUNNING] == 1 {
        instruction(s, xr);
    }
}
