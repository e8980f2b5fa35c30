// A scanline of playfield A: the registers that painting takes, and what the call answers. Definitions and claims are in specs/.
#![tactic(auto)]

ghost use Rattle.std.specs.Prelude.{◌≡◌};
ghost use Rattle.xosera.specs.Told.{refused};

use xosera::{Refusal, VramAddr};

// The border's colour index, XR_VID_CTRL 7:0; the window, XR_VID_LEFT and XR_VID_RIGHT; and of playfield A XR_PA_GFX_CTRL,
// XR_PA_DISP_ADDR and XR_PA_LINE_LEN.
#[derive(Clone, Copy)]
pub struct Playfield {
    pub border: u8,
    pub left: u16,
    pub right: u16,
    pub gfx: u16,
    pub address: VramAddr,
    pub length: u16,
}

// What painting a scanline answers.
#[repr(C)]
#[derive(Clone, Copy)]
pub struct PaintAnswer {
    pub refusal: u8,
}

impl From<Result<(), Refusal>> for PaintAnswer {
    ghost from_gives = { λ given answer. answer.refusal ≡ refused given };

    fn from(given: Result<(), Refusal>) -> PaintAnswer {
        match given {
            Ok(()) => PaintAnswer { refusal: 0 },
            Err(refused) => PaintAnswer {
                refusal: refused.into(),
            },
        }
    }
}

// The pixels of a scanline (specs/PaintCall.antt).
pub const SCREEN_WIDTH: usize = 640;
