// The bits and fields of registers' words, each read by one function that is named like its definition. Functions that compute alike stay
// apart: the name and the contract by it are what they are for (docs/EXTENDING.md, "Add a rule").
#![tactic(auto)]

ghost use Rattle.std.specs.Prelude.{◌≡◌};
ghost use Rattle.xosera.specs.Fields.{int_mask, int_status, wr_mask, is_reconfigure, copper_enabled};
ghost use Rattle.xosera.specs.Fields.{opcode, wait_line, jump_word, register_number, tile_word, colour_word, program_word};
ghost use Rattle.xosera.specs.Fields.{wait_pixel, ignores_line, ignores_pixel};
ghost use Rattle.xosera.specs.Fields.{constant_source, colour_tested, whole_bytes, test_colour, first_edge, last_edge};
ghost use Rattle.xosera.specs.Fields.{colour_base, is_blank, is_bitmap, pixel_depth, h_repeat, v_repeat, border_index};

// XM_INT_CTRL.
pub fn int_mask(w: u16) -> u16
    ensures { result ≡ int_mask w }
{
    w / 256 % 128
}

pub fn int_status(w: u16) -> u16
    ensures { result ≡ int_status w }
{
    w % 128
}

pub fn is_reconfigure(w: u16) -> bool
    ensures { result ≡ is_reconfigure w }
{
    words::bit(15, w)
}

// XM_SYS_CTRL.
pub fn wr_mask(w: u16) -> u16
    ensures { result ≡ wr_mask w }
{
    w % 16
}

// XR_COPP_CTRL.
pub fn copper_enabled(ctrl: u16) -> bool
    ensures { result ≡ copper_enabled ctrl }
{
    words::bit(15, ctrl)
}

// The first word of a copper instruction.
pub fn opcode(first: u16) -> u16
    ensures { result ≡ opcode first }
{
    first / 8192
}

pub fn wait_line(first: u16) -> u16
    ensures { result ≡ wait_line first }
{
    first % 2048
}

pub fn jump_word(first: u16) -> u16
    ensures { result ≡ jump_word first }
{
    first % 2048
}

pub fn register_number(first: u16) -> u16
    ensures { result ≡ register_number first }
{
    first % 256
}

pub fn tile_word(first: u16) -> u16
    ensures { result ≡ tile_word first }
{
    first % 8192
}

pub fn colour_word(first: u16) -> u16
    ensures { result ≡ colour_word first }
{
    first % 512
}

pub fn program_word(first: u16) -> u16
    ensures { result ≡ program_word first }
{
    first % 2048
}

// Its second word.
pub fn wait_pixel(second: u16) -> u16
    ensures { result ≡ wait_pixel second }
{
    second / 16 % 2048
}

pub fn ignores_line(second: u16) -> bool
    ensures { result ≡ ignores_line second }
{
    words::bit(0, second)
}

pub fn ignores_pixel(second: u16) -> bool
    ensures { result ≡ ignores_pixel second }
{
    words::bit(1, second)
}

// XR_BLIT_CTRL.
pub fn constant_source(ctrl: u16) -> bool
    ensures { result ≡ constant_source ctrl }
{
    words::bit(0, ctrl)
}

pub fn colour_tested(ctrl: u16) -> bool
    ensures { result ≡ colour_tested ctrl }
{
    words::bit(4, ctrl)
}

pub fn whole_bytes(ctrl: u16) -> bool
    ensures { result ≡ whole_bytes ctrl }
{
    words::bit(5, ctrl)
}

pub fn test_colour(ctrl: u16) -> u16
    ensures { result ≡ test_colour ctrl }
{
    ctrl / 256
}

// XR_BLIT_SHIFT.
pub fn first_edge(shift: u16) -> u16
    ensures { result ≡ first_edge shift }
{
    shift / 4096
}

pub fn last_edge(shift: u16) -> u16
    ensures { result ≡ last_edge shift }
{
    shift / 256 % 16
}

// XR_PA_GFX_CTRL.
pub fn colour_base(gfx: u16) -> u8
    ensures { result ≡ colour_base gfx }
{
    words::high_byte(gfx)
}

pub fn is_blank(gfx: u16) -> bool
    ensures { result ≡ is_blank gfx }
{
    words::bit(7, gfx)
}

pub fn is_bitmap(gfx: u16) -> bool
    ensures { result ≡ is_bitmap gfx }
{
    words::bit(6, gfx)
}

pub fn pixel_depth(gfx: u16) -> u16
    ensures { result ≡ pixel_depth gfx }
{
    gfx / 16 % 4
}

pub fn h_repeat(gfx: u16) -> u16
    ensures { result ≡ h_repeat gfx }
{
    gfx / 4 % 4 + 1
}

pub fn v_repeat(gfx: u16) -> u16
    ensures { result ≡ v_repeat gfx }
{
    gfx % 4 + 1
}

// XR_VID_CTRL.
pub fn border_index(ctrl: u16) -> u8
    ensures { result ≡ border_index ctrl }
{
    words::low_byte(ctrl)
}
