// The bench: the state and the memories that the calls are lent.
use crate::registers::*;
use xosera::{Done, MainRegister, Refusal, STATE_WORDS, StateWords, XR_WORDS, XrWords};

#[derive(Clone, Copy)]
pub struct Bench {
    state: StateWords,
    vram: [u16; 256],
    xr: XrWords,
}

impl Bench {
    // The state after reset, every VRAM word FFFF, every XR word 0, and the blitter's masks F.
    pub fn new() -> Result<Bench, Refusal> {
        let mut bench = Bench {
            state: [0; STATE_WORDS],
            vram: [0xFFFF; 256],
            xr: [0; XR_WORDS],
        };
        adapter::reset(&mut bench.state);
        bench.xr(SHIFT, MASKS)?;
        Ok(bench)
    }

    fn write(&mut self, reg: MainRegister, odd: bool, byte: u8) -> Result<(), Refusal> {
        let Bench { state, vram, xr } = self;
        adapter::write_byte(state, vram, xr, reg as u8, odd, byte)?;
        Ok(())
    }

    // A word written to a main register.
    pub fn set(&mut self, reg: MainRegister, word: u16) -> Result<(), Refusal> {
        let [high, low] = word.to_be_bytes();
        self.write(reg, false, high)?;
        self.write(reg, true, low)
    }

    // A word written to an XR register.
    pub fn xr(&mut self, address: u16, word: u16) -> Result<(), Refusal> {
        self.set(MainRegister::WrXaddr, address)?;
        self.set(MainRegister::Xdata, word)
    }

    // Up to n blit steps.
    pub fn run(&mut self, n: u64) -> Result<Done, Refusal> {
        adapter_steps::blit_run(&mut self.state, &mut self.vram, &self.xr, n)
    }

    // A blit of up to nine words.
    pub fn blit(&mut self, ctrl: u16, src_s: u16, shift: u16, words: u16) -> Result<Done, Refusal> {
        self.xr(CTRL, ctrl)?;
        self.xr(SRC_S, src_s)?;
        self.xr(SHIFT, shift)?;
        self.xr(WORDS, words)?;
        self.run(9)
    }

    // n timer ticks.
    pub fn tick(&mut self, n: u64) -> Result<(), Refusal> {
        for _ in 0..n {
            adapter_steps::timer_tick(&mut self.state)?;
        }
        Ok(())
    }

    // A byte read from a main register.
    pub fn read(&mut self, reg: MainRegister, odd: bool) -> Result<u8, Refusal> {
        adapter::read_byte(&mut self.state, &self.vram, &self.xr, reg as u8, odd)
    }

    // Both bytes of a main register.
    pub fn word(&mut self, reg: MainRegister) -> Result<u16, Refusal> {
        let high = self.read(reg, false)?;
        let low = self.read(reg, true)?;
        Ok(u16::from_be_bytes([high, low]))
    }

    // A VRAM word.
    pub fn see(&self, at: u8) -> u16 {
        self.vram[at as usize]
    }
}
