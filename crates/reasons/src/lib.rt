// Why a nibble of VRAM is as it is: what the call answers. Definitions and claims are in specs/.
#![tactic(auto)]

ghost use Rattle.std.specs.Prelude.{◌≡◌};
ghost use Rattle.reasons.specs.WhyCall.{numbers};

use xosera::Refusal;

// What became of a nibble in a blit. `HeldBack` has the reasons that applied at the last reach, one at least: first mask, last mask,
// colour test. `Written` has line and word, from 0, of the last write.
#[derive(Clone, Copy)]
pub enum Why {
    NeverReached,
    HeldBack {
        first: bool,
        last: bool,
        colour: bool,
    },
    Written {
        line: u16,
        word: u16,
    },
}

// The same, or the refusal, as numbers for C; specs/WhyCall.antt says which (`numbers`).
#[repr(C)]
#[derive(Clone, Copy, Default)]
pub struct WhyAnswer {
    pub refusal: u8,
    pub fate: u8,
    pub first: bool,
    pub last: bool,
    pub colour: bool,
    pub line: u16,
    pub word: u16,
}

// What a case does not have is 0 or no.
impl From<Result<Why, Refusal>> for WhyAnswer {
    ghost from_gives = { λ given answer. answer ≡ numbers given };

    fn from(given: Result<Why, Refusal>) -> WhyAnswer {
        let nothing = WhyAnswer::default();
        match given {
            Err(refused) => WhyAnswer {
                refusal: refused.into(),
                ..nothing
            },
            Ok(Why::NeverReached) => WhyAnswer { fate: 1, ..nothing },
            Ok(
                Why::HeldBack {
                    first,
                    last,
                    colour,
                },
            ) => WhyAnswer {
                fate: 2,
                first,
                last,
                colour,
                ..nothing
            },
            Ok(Why::Written { line, word }) => WhyAnswer {
                fate: 3,
                line,
                word,
                ..nothing
            },
        }
    }
}
