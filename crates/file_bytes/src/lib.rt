// A saved adapter's bytes: words, the contents and their test.
#![tactic(auto)]

ghost use Rattle.std.specs.Prelude.{◌≡◌, [], ◌∷◌, ◌*◌, length};
ghost use Rattle.saved_file.specs.SavedFile.{bytes_of, words_of, entry, contents, same_bytes};

use xosera::XR_WORDS;

// The words of a state that a file has: those before beam and copper.
pub const FORM_1_WORDS: usize = 75;

// How many bytes the state and XR memory have.
pub const STATE_BYTES: usize = 2 * FORM_1_WORDS;

const XR_BYTES: usize = 2 * XR_WORDS;

// Where the bodies of state, XR memory and VRAM start: behind the contents, without gaps.
pub const STATE_START: usize = 28;

pub const XR_START: usize = STATE_START + STATE_BYTES;

pub const VRAM_START: usize = XR_START + XR_BYTES;

// How many sections there are, and their kinds: bytes that stand once each in the contents.
const SECTIONS: u8 = 3;

const STATE: u8 = 1;

const XR_MEMORY: u8 = 2;

const VRAM: u8 = 3;

// Words to bytes, the high byte first. Each pair is put by its place: of a part lent in chunks the check keeps the length alone.
#[tactic(auto, using(crate::proofs::CopyLaws::put_next), unfolding(saved_file::specs::SavedFile::bytes_of))]
pub fn put_words(part: &mut [u8], words: &[u16])
    requires { length part.old ≡ 2 * length words.now }
    ensures { part.new ≡ bytes_of words.now }
{
    for (i, w) in words.iter().enumerate() {
        part[2 * i..2 * i + 2].copy_from_slice(&w.to_be_bytes());
    }
}

// Bytes to words, each by the place of its pair: of words lent to a `zip` the check keeps nothing.
#[tactic(auto, using(crate::proofs::CopyLaws::words_read))]
pub fn get_words(part: &[u8], words: &mut [u16])
    requires { length part.now ≡ 2 * length words.old }
    ensures { words.new ≡ words_of part.now }
{
    let (pairs, _) = part.as_chunks();
    for (i, w) in words.iter_mut().enumerate() {
        *w = u16::from_be_bytes(pairs[i]);
    }
}

// A section's entry in the contents.
#[tactic(auto, using(crate::proofs::CopyLaws::four_bytes), unfolding(saved_file::specs::SavedFile::entry, saved_file::specs::SavedFile::bytes_of))]
fn entry(kind: u8, start: u32, size: u32) -> [u8; 9]
    ensures { result ≡ entry kind start size }
{
    let mut bytes = [0; 9];
    bytes[0] = kind;
    bytes[1..5].copy_from_slice(&start.to_be_bytes());
    bytes[5..9].copy_from_slice(&size.to_be_bytes());
    bytes
}

// The contents of a file whose VRAM is so many bytes long.
#[tactic(auto, unfolding(saved_file::specs::SavedFile::contents, saved_file::specs::SavedFile::entries, saved_file::specs::SavedFile::entry, saved_file::specs::SavedFile::bytes_of))]
pub fn contents(vram: u32) -> [u8; STATE_START]
    ensures { result ≡ contents (150 ∷ 13312 ∷ vram ∷ []) }
{
    let mut bytes = [0; STATE_START];
    bytes[0] = SECTIONS;
    bytes[1..10].copy_from_slice(&entry(STATE, STATE_START as u32, STATE_BYTES as u32));
    bytes[10..19].copy_from_slice(&entry(XR_MEMORY, XR_START as u32, XR_BYTES as u32));
    bytes[19..28].copy_from_slice(&entry(VRAM, VRAM_START as u32, vram));
    bytes
}

// Whether two parts are the same, byte for byte. It is not `==` of slices, since a must-fail edit errs in the test of one byte.
fn same(a: &[u8], b: &[u8]) -> bool
    ensures { result ≡ same_bytes a.now b.now }
{
    a.len() == b.len() && a.iter().zip(b).all(|(x, y)| x == y)
}

// Whether these are the contents of a file whose VRAM is so many bytes long.
pub fn are_contents(part: &[u8], vram: u32) -> bool
    ensures { result ≡ same_bytes (contents (150 ∷ 13312 ∷ vram ∷ [])) part.now }
{
    same(&contents(vram), part)
}
