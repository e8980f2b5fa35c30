// What the rows give, as they show it. Bytes are compared whole, also where a row shows one bit of them.
use std::fmt;
use xosera::Refusal;

// Words of VRAM or of a register.
#[derive(Clone, Copy, PartialEq)]
pub struct Words<const N: usize>(pub [u16; N]);

impl<const N: usize> fmt::Display for Words<N> {
    fn fmt<W: fmt::Write>(&self, f: &mut fmt::Formatter<W>) -> fmt::Result {
        for (i, word) in self.0.iter().enumerate() {
            let space = if i == 0 { "" } else { " " };
            write!(f, "{space}{word:04X}")?;
        }
        Ok(())
    }
}

// The write address of two cases.
#[derive(Clone, Copy, PartialEq)]
pub struct Addresses(pub u16, pub u16);

impl fmt::Display for Addresses {
    fn fmt<W: fmt::Write>(&self, f: &mut fmt::Formatter<W>) -> fmt::Result {
        write!(f, "{:04X}; {:04X}", self.0, self.1)
    }
}

// The timer's high and low byte.
#[derive(Clone, Copy, PartialEq)]
pub struct TimerBytes(pub u8, pub u8);

impl fmt::Display for TimerBytes {
    fn fmt<W: fmt::Write>(&self, f: &mut fmt::Formatter<W>) -> fmt::Result {
        write!(f, "{:02X}, {:02X}", self.0, self.1)
    }
}

// The interrupt status after each of four ticks; bit 5 is the timer's.
#[derive(Clone, Copy, PartialEq)]
pub struct Ticks(pub [u8; 4]);

impl fmt::Display for Ticks {
    fn fmt<W: fmt::Write>(&self, f: &mut fmt::Formatter<W>) -> fmt::Result {
        write!(f, "bit 5 at ticks 1 to 4:")?;
        for status in self.0.iter() {
            write!(f, " {}", *status >> 5 & 1)?;
        }
        Ok(())
    }
}

// How many lines of one word a blit drew.
#[derive(Clone, Copy, PartialEq)]
pub struct Lines(pub u64);

impl fmt::Display for Lines {
    fn fmt<W: fmt::Write>(&self, f: &mut fmt::Formatter<W>) -> fmt::Result {
        write!(f, "lines of one word: {}", self.0)
    }
}

// The words of a run, then the high byte of XM_SYS_CTRL, with busy at bit 5 and full at bit 6, and the interrupt status.
#[derive(Clone, Copy, PartialEq)]
pub struct Queued {
    pub count: u64,
    pub system: u8,
    pub status: u8,
}

impl fmt::Display for Queued {
    fn fmt<W: fmt::Write>(&self, f: &mut fmt::Formatter<W>) -> fmt::Result {
        let count = self.count;
        let busy = self.system >> 5 & 1;
        let full = self.system >> 6 & 1;
        let bit_6 = self.status >> 6 & 1;
        write!(f, "count {count}, busy {busy}, full {full}, bit 6 {bit_6}")
    }
}

// What a write was refused with, if it was, and the write address after it.
#[derive(Clone, Copy, PartialEq)]
pub struct Refused {
    pub refusal: Option<Refusal>,
    pub address: u16,
}

impl fmt::Display for Refused {
    fn fmt<W: fmt::Write>(&self, f: &mut fmt::Formatter<W>) -> fmt::Result {
        let number = self.refusal.map_or(0, u8::from);
        write!(f, "refusal {number}, write address {:04X}", self.address)
    }
}
