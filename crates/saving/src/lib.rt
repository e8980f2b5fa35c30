// Save and load: the two calls that turn an adapter into a file and back. Each works or gives the one refusal that applies and
// changes nothing. Both memories come as slices, since their lengths are tested here; XR memory is an array from there on.
#![tactic(auto)]

ghost use Rattle.std.specs.Prelude.{◌≡◌};
ghost use Rattle.xosera.specs.State.{state_at};
ghost use Rattle.xosera.specs.Adapter.{adapter_at};
ghost use Rattle.xosera.specs.Beam.{at_rest};
ghost use Rattle.xosera.specs.Events.{Untouched, of_number, of_nothing};
ghost use Rattle.saved_file.specs.SaveLoad.{Saves, Loads};

use file_bytes::VRAM_START;
use xosera::{BEAM_LINE, BEAM_POSITION, COPPER_RUNNING, COPPER_WORD, Refusal, StateWords};

// Whether beam and copper are at rest.
#[tactic(auto, unfolding(xosera::specs::State::state_at, xosera::specs::Beam::at_rest))]
fn at_rest(s: &StateWords) -> bool
    ensures { result ≡ at_rest (state_at s.now).beam }
{
    s[BEAM_LINE] == 0 && s[BEAM_POSITION] == 0 && s[COPPER_RUNNING] == 0 && s[COPPER_WORD] == 0
}

// Saves an adapter to a room of bytes and gives the file's length: refusals 1 to 3, then 7, then 10.
pub fn save(s: &StateWords, vram: &[u16], xr: &[u16], room: &mut [u8]) -> Result<u64, Refusal>
    ensures { Saves (adapter_at s.now vram.now xr.now) room.old (of_number result) room.new }
{
    refusals::tested_refusal(s, vram.len(), xr.len())?;
    let length = VRAM_START + 2 * vram.len();
    if room.len() < length {
        return Err(Refusal::RoomShort);
    }
    if !at_rest(s) {
        return Err(Refusal::NotAtRest);
    }
    file_sections::put_file(s, vram, xr.as_array().unwrap(), room);
    Ok(length as u64)
}

// Loads an adapter from a file: refusals 1 to 3, then 8, then 9.
pub fn load(
    s: &mut StateWords,
    vram: &mut [u16],
    xr: &mut [u16],
    file: &[u8],
) -> Result<(), Refusal>
    ensures done { Loads (adapter_at s.old vram.old xr.old) file.now (of_nothing result)
        (adapter_at s.new vram.new xr.new) }
    ensures refused { Untouched (of_nothing result) s.old s.new }
{
    refusals::tested_refusal(s, vram.len(), xr.len())?;
    if !file_sections::is_saved(file) {
        return Err(Refusal::NoSavedAdapter);
    }
    if file.len() != VRAM_START + 2 * vram.len() {
        return Err(Refusal::SavedVramLength);
    }
    file_sections::take_file(s, vram, xr.as_mut_array().unwrap(), file);
    Ok(())
}
