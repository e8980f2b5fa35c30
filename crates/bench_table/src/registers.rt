// The blitter's registers that the rows name, by XR address.
pub const CTRL: u16 = 0x40;

pub const ANDC: u16 = 0x41;

pub const XOR: u16 = 0x42;

pub const MOD_S: u16 = 0x43;

pub const SRC_S: u16 = 0x44;

pub const DST_D: u16 = 0x46;

pub const SHIFT: u16 = 0x47;

pub const LINES: u16 = 0x48;

pub const WORDS: u16 = 0x49;

// SHIFT with both masks F.
pub const MASKS: u16 = 0xFF00;
