// The adapter's types by value: the two kinds of address, the blitter's registers and engine, what a call answers and what it is refused
// with. The state is a fixed number of 16-bit words, lent to each call; their meaning is in specs/State.antt, their names are here. It is no
// struct of fields, since the definitions speak of the words (`state_by`, `laid_out`), as the saved file does (`register_words`).
#![tactic(auto)]

ghost use Rattle.std.specs.Prelude.{◌≡◌};
ghost use Rattle.xosera.specs.Events.{maskless, of_write, of_read, of_blit, of_state, of_line, of_mask, of_number, of_done, of_nothing, of_up};
ghost use Rattle.xosera.specs.Told.{refusal_number, MainRegisterOf};

// An address in VRAM.
#[repr(C)]
#[derive(Clone, Copy)]
pub struct VramAddr(pub u16);

// An address in the extended (XR) space. It never stands for a VRAM address.
#[repr(C)]
#[derive(Clone, Copy)]
pub struct XrAddr(pub u16);

// The blitter's ten registers, 0x40 to 0x49.
#[repr(C)]
#[derive(Clone, Copy, Default)]
pub struct BlitRegs {
    pub ctrl: u16,
    pub andc: u16,
    pub xor: u16,
    pub mods: u16,
    pub srcs: u16,
    pub modd: u16,
    pub dstd: u16,
    pub shift: u16,
    pub lines: u16,
    pub words: u16,
}

// The engine: whether a blit runs, 1 or 0, a word of the state as every flag is (`state_by`); the line and the word that come next; the source word kept for the
// shifter; and the registers as copied, SRC_S and DST_D moving on in place.
#[repr(C)]
#[derive(Clone, Copy, Default)]
pub struct Engine {
    pub running: u16,
    pub line: u16,
    pub word: u16,
    pub kept: u16,
    pub regs: BlitRegs,
}

// The words of a state, and those of XR memory.
pub type StateWords = [u16; STATE_WORDS];

pub type XrWords = [u16; XR_WORDS];

// The sixteen main registers.
#[derive(Clone, Copy, Debug, PartialEq, Eq)]
pub enum MainRegister {
    SysCtrl,
    IntCtrl,
    Timer,
    RdXaddr,
    WrXaddr,
    Xdata,
    RdIncr,
    RdAddr,
    WrIncr,
    WrAddr,
    Data,
    Data2,
    Unused12,
    Unused13,
    Unused14,
    Features,
}

// A register by its number; over 15 there is none.
impl TryFrom<u8> for MainRegister {
    type Error = Refusal;

    ghost try_from_gives = { MainRegisterOf };

    fn try_from(number: u8) -> Result<MainRegister, Refusal> {
        match number {
            0 => Ok(MainRegister::SysCtrl),
            1 => Ok(MainRegister::IntCtrl),
            2 => Ok(MainRegister::Timer),
            3 => Ok(MainRegister::RdXaddr),
            4 => Ok(MainRegister::WrXaddr),
            5 => Ok(MainRegister::Xdata),
            6 => Ok(MainRegister::RdIncr),
            7 => Ok(MainRegister::RdAddr),
            8 => Ok(MainRegister::WrIncr),
            9 => Ok(MainRegister::WrAddr),
            10 => Ok(MainRegister::Data),
            11 => Ok(MainRegister::Data2),
            12 => Ok(MainRegister::Unused12),
            13 => Ok(MainRegister::Unused13),
            14 => Ok(MainRegister::Unused14),
            15 => Ok(MainRegister::Features),
            _ => Err(Refusal::NoRegister),
        }
    }
}

// What a call is refused with, by the papers' numbers (specs/Told.antt), of which no call here gives 14.
#[derive(Clone, Copy, Debug, PartialEq, Eq)]
pub enum Refusal {
    VramLength = 1,
    XrLength = 2,
    StateRange = 3,
    NoRegister = 4,
    BlitterFull = 5,
    Reconfigure = 6,
    RoomShort = 7,
    NoSavedAdapter = 8,
    SavedVramLength = 9,
    NotAtRest = 10,
    NoBitmap = 11,
    NoLine = 12,
    PixelsLength = 13,
    NoNibble = 15,
}

// The number of a refusal, for C.
impl From<Refusal> for u8 {
    ghost from_gives = { λ refused n. n ≡ refusal_number refused };

    fn from(refused: Refusal) -> u8 {
        refused as u8
    }
}

// What some blit steps came to: how many words were done, and the nibbles that the last of them wrote.
#[derive(Clone, Copy, Default)]
pub struct Done {
    pub count: u64,
    pub mask: u8,
}

// What writing a byte answers to C. In every answer `refusal` is 0 for done. `mask` has the nibbles of VRAM that were written, bit 3 for
// 15:12 of the word to bit 0 for 3:0, and is 0 of all but an odd data write.
#[repr(C)]
#[derive(Clone, Copy)]
pub struct WriteAnswer {
    pub refusal: u8,
    pub mask: u8,
}

impl From<Result<u8, Refusal>> for WriteAnswer {
    ghost from_gives = { λ given answer. of_write answer ≡ of_mask given };

    fn from(given: Result<u8, Refusal>) -> WriteAnswer {
        match given {
            Ok(mask) => WriteAnswer { refusal: 0, mask },
            Err(refused) => WriteAnswer {
                refusal: refused.into(),
                mask: 0,
            },
        }
    }
}

// What reading a byte answers.
#[repr(C)]
#[derive(Clone, Copy)]
pub struct ReadAnswer {
    pub refusal: u8,
    pub byte: u8,
}

impl From<Result<u8, Refusal>> for ReadAnswer {
    ghost from_gives = { λ given answer. of_read answer ≡ of_number given };

    fn from(given: Result<u8, Refusal>) -> ReadAnswer {
        match given {
            Ok(byte) => ReadAnswer { refusal: 0, byte },
            Err(refused) => ReadAnswer {
                refusal: refused.into(),
                byte: 0,
            },
        }
    }
}

// What a blit step and a run of blit steps answer: how many words were done, and the nibbles that the last of them wrote.
#[repr(C)]
#[derive(Clone, Copy)]
pub struct BlitAnswer {
    pub refusal: u8,
    pub mask: u8,
    pub count: u64,
}

impl From<Result<Done, Refusal>> for BlitAnswer {
    ghost from_gives = { λ given answer. of_blit answer ≡ of_done given };

    fn from(given: Result<Done, Refusal>) -> BlitAnswer {
        let (refusal, done) = match given {
            Ok(done) => (0, done),
            Err(refused) => (refused.into(), Done::default()),
        };
        BlitAnswer {
            refusal,
            mask: done.mask,
            count: done.count,
        }
    }
}

// What a timer tick and a beam step answer.
#[repr(C)]
#[derive(Clone, Copy)]
pub struct StateAnswer {
    pub refusal: u8,
}

impl From<Result<(), Refusal>> for StateAnswer {
    ghost from_gives = { λ given answer. of_state answer ≡ of_nothing given };

    fn from(given: Result<(), Refusal>) -> StateAnswer {
        match given {
            Ok(()) => StateAnswer { refusal: 0 },
            Err(refused) => StateAnswer {
                refusal: refused.into(),
            },
        }
    }
}

// What the line question answers: whether the interrupt line is up.
#[repr(C)]
#[derive(Clone, Copy)]
pub struct LineAnswer {
    pub refusal: u8,
    pub up: bool,
}

impl From<Result<bool, Refusal>> for LineAnswer {
    ghost from_gives = { λ given answer. of_line answer ≡ of_up given };

    fn from(given: Result<bool, Refusal>) -> LineAnswer {
        match given {
            Ok(up) => LineAnswer { refusal: 0, up },
            Err(refused) => LineAnswer {
                refusal: refused.into(),
                up: false,
            },
        }
    }
}

// What a save answers: the length of the file in bytes.
#[repr(C)]
#[derive(Clone, Copy)]
pub struct SaveAnswer {
    pub refusal: u8,
    pub length: u64,
}

impl From<Result<u64, Refusal>> for SaveAnswer {
    ghost from_gives = { λ given answer. maskless answer.refusal answer.length ≡ of_number given };

    fn from(given: Result<u64, Refusal>) -> SaveAnswer {
        match given {
            Ok(length) => SaveAnswer { refusal: 0, length },
            Err(refused) => SaveAnswer {
                refusal: refused.into(),
                length: 0,
            },
        }
    }
}

// What a load answers.
#[repr(C)]
#[derive(Clone, Copy)]
pub struct LoadAnswer {
    pub refusal: u8,
}

impl From<Result<(), Refusal>> for LoadAnswer {
    ghost from_gives = { λ given answer. maskless answer.refusal 0 ≡ of_nothing given };

    fn from(given: Result<(), Refusal>) -> LoadAnswer {
        match given {
            Ok(()) => LoadAnswer { refusal: 0 },
            Err(refused) => LoadAnswer {
                refusal: refused.into(),
            },
        }
    }
}

// How many words a state has, and which of them stands for which field (specs/State.antt).
pub const STATE_WORDS: usize = 79;

// How many words XR memory has.
pub const XR_WORDS: usize = 6656;

// Sixteen latches, one for each main register.
pub const LATCHES: usize = 0;

// The ports' registers and read buffers.
pub const RD_XADDR: usize = 16;

pub const WR_XADDR: usize = 17;

pub const XR_BUFFER: usize = 18;

pub const RD_INCR: usize = 19;

pub const RD_ADDR: usize = 20;

pub const WR_INCR: usize = 21;

pub const WR_ADDR: usize = 22;

pub const VRAM_BUFFER: usize = 23;

pub const NIBBLES: usize = 24;

// The timer, the countdown and its interval, the saved low byte.
pub const TIMER: usize = 25;

pub const COUNTDOWN: usize = 26;

pub const INTERVAL: usize = 27;

pub const TIMER_SAVED: usize = 28;

// Interrupts and the queue.
pub const INT_MASK: usize = 29;

pub const QUEUED: usize = 30;

pub const STATUS: usize = 31;

// The engine: its ten copied registers stand in the order of their addresses.
pub const ENGINE_RUNNING: usize = 32;

pub const ENGINE_LINE: usize = 33;

pub const ENGINE_WORD: usize = 34;

pub const ENGINE_KEPT: usize = 35;

pub const ENGINE_CTRL: usize = 36;

pub const ENGINE_ANDC: usize = 37;

pub const ENGINE_XOR: usize = 38;

pub const ENGINE_MOD_S: usize = 39;

pub const ENGINE_SRC_S: usize = 40;

pub const ENGINE_MOD_D: usize = 41;

pub const ENGINE_DST_D: usize = 42;

pub const ENGINE_SHIFT: usize = 43;

pub const ENGINE_LINES: usize = 44;

pub const ENGINE_WORDS: usize = 45;

// The stored registers of the XR space, and seven each for the two playfields.
pub const VID_CTRL: usize = 46;

pub const COPP_CTRL: usize = 47;

pub const AUD_CTRL: usize = 48;

pub const VID_LEFT: usize = 49;

pub const VID_RIGHT: usize = 50;

pub const PLAYFIELD_A: usize = 51;

pub const PLAYFIELD_B: usize = 58;

// The blitter's ten registers as the host wrote them.
pub const BLIT_REGS: usize = 65;

// The video beam and the copper.
pub const BEAM_LINE: usize = 75;

pub const BEAM_POSITION: usize = 76;

pub const COPPER_RUNNING: usize = 77;

pub const COPPER_WORD: usize = 78;

// The bits of the interrupt status (specs/Fields.antt).
pub const FRAME_ENDED: u16 = 16;

pub const TIMER_EXPIRED: u16 = 32;

pub const BLIT_DONE: u16 = 64;

// The flags of XM_SYS_CTRL, as bits of its high byte.
pub const BLITTER_FULL: u8 = 64;

pub const BLITTER_BUSY: u8 = 32;

pub const HBLANK: u8 = 8;

pub const VBLANK: u8 = 4;

// The frame (specs/Beam.antt): the positions of a line, the first of which are blank, its lines, and those that are visible.
pub const FRAME_POSITIONS: u16 = 800;

pub const FRAME_BLANK: u16 = 160;

pub const FRAME_LINES: u16 = 525;

pub const VISIBLE_LINES: u16 = 480;

// Where colour memory begins in XR memory.
pub const COLOUR_MEMORY: usize = 5120;

// The words of a copper program, and where it begins in XR memory.
pub const PROGRAM: u16 = 1024;

pub const COPPER_MEMORY: usize = 5632;
