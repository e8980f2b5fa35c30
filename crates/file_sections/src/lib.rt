// The sections of a saved adapter: written to a room, tested, and taken over from a file.
#![tactic(auto)]

ghost use Rattle.std.specs.Prelude.{◌≡◌, ◌++◌, ◌+◌, ◌*◌, ◌≤◌, length, drop};
ghost use Rattle.xosera.specs.State.{state_at};
ghost use Rattle.xosera.specs.Adapter.{adapter_at};
ghost use Rattle.xosera.specs.Ranges.{in_range};
ghost use Rattle.saved_file.specs.SavedFile.{saved, held_words, held, is_saved};

use file_bytes::{FORM_1_WORDS, STATE_BYTES, STATE_START, VRAM_START, XR_START};
use xosera::{BEAM_LINE, STATE_WORDS, StateWords, XrWords};

// The file of an adapter, from a room's first byte on.
pub fn put_file(s: &StateWords, vram: &[u16], xr: &XrWords, room: &mut [u8])
    requires vram_len_bound { length vram.now ≤ 65536 }
    requires vram_in_bounds { 13490 + 2 * length vram.now ≤ length room.old }
    ensures { room.new ≡ saved (adapter_at s.now vram.now xr.now)
        ++ drop (13490 + 2 * length vram.now) room.old }
{
    let vram_bytes = 2 * vram.len();
    let end = VRAM_START + vram_bytes;
    room[0..STATE_START].copy_from_slice(&file_bytes::contents(vram_bytes as u32));
    file_bytes::put_words(&mut room[STATE_START..XR_START], &s[0..FORM_1_WORDS]);
    file_bytes::put_words(&mut room[XR_START..VRAM_START], xr);
    file_bytes::put_words(&mut room[VRAM_START..end], vram);
}

// The words of a state by its section in a file, beam and copper at rest.
#[tactic(auto, using(crate::proofs::RestingStates::rest_behind))]
fn get_state(part: &[u8; STATE_BYTES], s: &mut StateWords)
    ensures { s.new ≡ held_words part.now }
{
    file_bytes::get_words(part, &mut s[0..FORM_1_WORDS]);
    s[BEAM_LINE..].fill(0);
}

// Whether the state of a file is within its ranges. Beam and copper at rest are.
#[tactic(auto, using(crate::proofs::RestingStates::held_in_range))]
fn is_state(part: &[u8; STATE_BYTES]) -> bool
    ensures { result ≡ in_range (state_at (held_words part.now)) }
{
    let mut words = [0; STATE_WORDS];
    get_state(part, &mut words);
    ranges::registers_in_range(&words) && ranges::blitter_in_range(&words)
}

// Whether a file is a saved adapter: its length is one that a file has, its contents are those that belong to that length, and
// its state is within its ranges.
#[tactic(auto, using(crate::proofs::SavedTests::saved_tests))]
pub fn is_saved(file: &[u8]) -> bool
    ensures { result ≡ is_saved file.now }
{
    let Some(vram_bytes) = file.len().checked_sub(VRAM_START) else {
        return false;
    };
    if vram_bytes % 2 != 0 || !vram::is_vram_length(vram_bytes / 2) {
        return false;
    }
    file_bytes::are_contents(&file[0..STATE_START], vram_bytes as u32)
        && is_state(file[STATE_START..XR_START].as_array().unwrap())
}

// Takes over the adapter that a file holds. It slices anew: `is_saved` answers yes or no for every slice, as the definition does, and a test
// that gave the parts of a file would need a type for them.
pub fn take_file(s: &mut StateWords, vram: &mut [u16], xr: &mut XrWords, file: &[u8])
    requires { length file.now ≡ 13490 + 2 * length vram.old }
    ensures { adapter_at s.new vram.new xr.new ≡ held file.now }
{
    get_state(file[STATE_START..XR_START].as_array().unwrap(), s);
    file_bytes::get_words(&file[XR_START..VRAM_START], xr);
    file_bytes::get_words(&file[VRAM_START..], vram);
}
