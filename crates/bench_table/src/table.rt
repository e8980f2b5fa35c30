// The rows, in the papers' order: what is done, what it should give and what it gave.
use crate::bench::Bench;
use crate::registers::*;
use crate::report::{Stopped, Table};
use crate::shown::{Addresses, Lines, Queued, Refused, Ticks, TimerBytes, Words};
use xosera::{MainRegister, Refusal};

// What a blit draws.
pub fn drawing(rt: &impl Print, table: &mut Table) -> Result<(), Stopped> {
    let mut b = Bench::new()?;
    b.set(MainRegister::WrIncr, 1)?;
    b.set(MainRegister::WrAddr, 0x10)?;
    b.set(MainRegister::Data, 0x1234)?;
    b.set(MainRegister::Data, 0x5678)?;
    b.set(MainRegister::Data, 0x9ABC)?;
    b.blit(0, 0x10, 0x7801, 2)?;
    let case = "SHIFT 7801, 3 words 1234 5678 9ABC";
    let gave = Words([b.see(0), b.see(1), b.see(2)]);
    table.row(rt, case, Words([0xF123, 0x4567, 0x8FFF]), gave)?;

    let mut b = Bench::new()?;
    b.xr(ANDC, 0x00FF)?;
    b.xr(XOR, 0x1111)?;
    b.blit(1, 0x0F3C, MASKS, 0)?;
    let case = "constant 0F3C, ANDC 00FF, XOR 1111";
    table.row(rt, case, Words([0x1E11]), Words([b.see(0)]))?;

    let mut b = Bench::new()?;
    b.blit(0x0A11, 0x0B0A, MASKS, 0)?;
    let case = "constant 0B0A, CTRL 0A11";
    table.row(rt, case, Words([0xFBFF]), Words([b.see(0)]))?;

    let mut b = Bench::new()?;
    b.blit(0x0A31, 0x0B0A, MASKS, 0)?;
    let case = "same, CTRL 0A31";
    table.row(rt, case, Words([0x0BFF]), Words([b.see(0)]))?;
    Ok(())
}

// Where a blit draws.
pub fn places(rt: &impl Print, table: &mut Table) -> Result<(), Stopped> {
    let mut b = Bench::new()?;
    b.blit(1, 0x1234, 0x7E00, 0)?;
    let case = "one word, constant 1234, SHIFT 7E00";
    table.row(rt, case, Words([0xF23F]), Words([b.see(0)]))?;

    let mut b = Bench::new()?;
    b.xr(MOD_S, 1)?;
    b.xr(LINES, 2)?;
    b.blit(1, 7, MASKS, 0)?;
    let case = "constant 7, MOD_S 1, 3 lines of 1";
    let gave = Words([b.see(0), b.see(1), b.see(2)]);
    table.row(rt, case, Words([7, 8, 9]), gave)?;

    let mut b = Bench::new()?;
    b.set(MainRegister::WrAddr, 0x10)?;
    b.set(MainRegister::Data, 0xA)?;
    b.xr(DST_D, 0x11)?;
    b.blit(0, 0x10, MASKS, 2)?;
    let case = "source 0x10 holds A, target 0x11, 3 words";
    let gave = Words([b.see(0x11), b.see(0x12), b.see(0x13)]);
    table.row(rt, case, Words([0xA, 0xA, 0xA]), gave)?;
    Ok(())
}

// The host's registers.
pub fn hosts(rt: &impl Print, table: &mut Table) -> Result<(), Stopped> {
    let mut b = Bench::new()?;
    b.set(MainRegister::SysCtrl, 2)?;
    b.set(MainRegister::Data, 0x1234)?;
    let case = "nibble mask 2, data write 1234";
    table.row(rt, case, Words([0xFF3F]), Words([b.see(0)]))?;

    let mut b = Bench::new()?;
    b.set(MainRegister::WrAddr, 5)?;
    b.set(MainRegister::Data, 0xBEEF)?;
    b.set(MainRegister::RdAddr, 5)?;
    b.set(MainRegister::Data, 0)?;
    let case = "5 holds BEEF, read address 5, store 0 at 5, read";
    let gave = Words([b.word(MainRegister::Data)?]);
    table.row(rt, case, Words([0xBEEF]), gave)?;

    let mut b = Bench::new()?;
    b.set(MainRegister::WrAddr, 0xFFFF)?;
    b.set(MainRegister::WrIncr, 1)?;
    b.set(MainRegister::Data, 0)?;
    let over = b.word(MainRegister::WrAddr)?;
    b.set(MainRegister::WrAddr, 1)?;
    b.set(MainRegister::WrIncr, 0xFFFE)?;
    b.set(MainRegister::Data, 0)?;
    let under = b.word(MainRegister::WrAddr)?;
    let case = "write address FFFF, step 1; 1, step FFFE";
    table.row(rt, case, Addresses(0, 0xFFFF), Addresses(over, under))?;
    Ok(())
}

// The timer.
pub fn timers(rt: &impl Print, table: &mut Table) -> Result<(), Stopped> {
    let mut b = Bench::new()?;
    b.tick(0xFF)?;
    let high = b.read(MainRegister::Timer, false)?;
    b.tick(1)?;
    let low = b.read(MainRegister::Timer, true)?;
    let case = "timer 00FF, high read, tick, low read";
    table.row(rt, case, TimerBytes(0, 0xFF), TimerBytes(high, low))?;

    let mut b = Bench::new()?;
    b.set(MainRegister::Timer, 2)?;
    b.tick(1)?;
    let first = b.read(MainRegister::IntCtrl, true)?;
    b.tick(1)?;
    let second = b.read(MainRegister::IntCtrl, true)?;
    // A write clears the status.
    b.set(MainRegister::IntCtrl, 0x7F)?;
    b.tick(1)?;
    let third = b.read(MainRegister::IntCtrl, true)?;
    b.tick(1)?;
    let fourth = b.read(MainRegister::IntCtrl, true)?;
    let gave = Ticks([first, second, third, fourth]);
    table.row(rt, "countdown 2", Ticks([0, 0x20, 0, 0x20]), gave)?;
    Ok(())
}

// A blit's length, and the queued blit.
pub fn queues(rt: &impl Print, table: &mut Table) -> Result<(), Stopped> {
    let mut b = Bench::new()?;
    b.xr(LINES, 0x8000)?;
    b.xr(WORDS, 0)?;
    let done = b.run(9)?;
    table.row(rt, "LINES 8000", Lines(1), Lines(done.count))?;

    let mut b = Bench::new()?;
    b.xr(WORDS, 2)?;
    b.xr(WORDS, 1)?;
    let gave = Queued {
        count: b.run(4)?.count,
        system: b.read(MainRegister::SysCtrl, false)?,
        status: b.read(MainRegister::IntCtrl, true)?,
    };
    // After reset the high byte of XM_SYS_CTRL has bit 3 too, the beam in left blanking.
    let should = Queued {
        count: 4,
        system: 0x28,
        status: 0x40,
    };
    table.row(rt, "3 words running, 2 queued, run 4", should, gave)?;

    let mut b = Bench::new()?;
    b.xr(WORDS, 0)?;
    b.xr(WORDS, 0)?;
    let gave = Refused {
        refusal: b.xr(ANDC, 0).err(),
        address: b.word(MainRegister::WrXaddr)?,
    };
    let should = Refused {
        refusal: Some(Refusal::BlitterFull),
        address: 0x41,
    };
    table.row(rt, "queued, then write ANDC", should, gave)?;
    Ok(())
}

// From line to line (document 02, request 4).
pub fn shifted_lines(rt: &impl Print, table: &mut Table) -> Result<(), Stopped> {
    let mut b = Bench::new()?;
    b.set(MainRegister::WrIncr, 1)?;
    b.set(MainRegister::WrAddr, 0x10)?;
    b.set(MainRegister::Data, 0x1234)?;
    b.set(MainRegister::Data, 0x5678)?;
    b.xr(LINES, 1)?;
    b.blit(0, 0x10, 0xFF01, 0)?;
    let case = "shift 1, two lines of one word, 1234 and 5678";
    let gave = Words([b.see(0), b.see(1)]);
    table.row(rt, case, Words([0x0123, 0x4567]), gave)?;
    Ok(())
}
