// Why a nibble of VRAM is as it is: a blit done on a copy of the memory, with an account of what its words did to that nibble.
#![tactic(auto)]

ghost use Rattle.std.specs.Prelude.{◌≡◌, true, false, ◌-◌, ◌%◌, ◌≤◌, eqb, length, IfOk};
ghost use Rattle.xosera.specs.Told.{refused};
ghost use Rattle.xosera.specs.Memories.{is_vram_length};
ghost use Rattle.xosera.specs.Blitter.{sourced, drawing};
ghost use Rattle.words.specs.Spread.{spread};
ghost use Rattle.blits.specs.Blits.{drawn_by};
ghost use Rattle.reasons.specs.Account.{held_back_by, why_of};
ghost use Rattle.reasons.specs.WhyCall.{why_refusal, numbers, Explains};
ghost use Rattle.why.specs.Reaches.{after_reach, NotedOne};
ghost use Rattle.why.specs.Progress.{Passed};

use engine::{Blit, Drawn};
use reasons::{Why, WhyAnswer};
use xosera::{BlitRegs, Engine, Refusal, VramAddr};

// The nibble asked about, once it is known to be there: the address of its word, and 0 to 3 from the left.
#[derive(Clone, Copy)]
struct Spot {
    address: usize,
    nibble: u32,
    ghost in_word: { nibble ≤ 3 },
}

// The word that a step took, and what is known of the nibble after it.
#[derive(Clone, Copy)]
struct Noted {
    word: u16,
    why: Why,
}

// VRAM is a lent slice, and each function asks for its length: of a struct round it nothing would be known after a call.
impl Spot {
    // The nibble from the right, as the bits of a mask count.
    fn from_right(self) -> u16
        ensures { result ≡ 3 - self.nibble }
    {
        (3 - self.nibble) as u16
    }

    // What holds it back at an engine's next step, by the word that it takes.
    fn held_back(self, e: Engine, word: u16) -> Why
        ensures { result ≡ held_back_by e (sourced e word) (3 - self.nibble) }
    {
        let k = self.from_right();
        let first = words::bit(k, engine::first_mask(e));
        let last = words::bit(k, engine::last_mask(e));
        let colour = words::has_nibble(k, engine::test_bits(e, engine::source(e, word)));
        Why::HeldBack {
            first: !first,
            last: !last,
            colour: !colour,
        }
    }

    // What is known of it after a word that reached it.
    #[tactic(auto, unfolding(crate::specs::Reaches::after_reach, reasons::specs::Account::unless_written))]
    fn after_reach(self, e: Engine, drawn: Drawn, known: Why) -> Why
        requires { drawn.bits ≡ spread (drawing e drawn.word).mask }
        ensures { result ≡ after_reach e drawn.word (3 - self.nibble) known }
    {
        if words::has_nibble(self.from_right(), drawn.bits) {
            return Why::Written {
                line: e.line,
                word: e.word,
            };
        }
        match known {
            Why::Written { .. } => known,
            Why::NeverReached | Why::HeldBack { .. } => self.held_back(e, drawn.word),
        }
    }

    // Whether an engine's next word goes to its address, in a memory of n words.
    fn is_reached(self, e: Engine, n: usize) -> bool
        requires { is_vram_length n ≡ true }
        ensures { result ≡ eqb (e.regs.dstd % n) self.address }
    {
        vram::place(VramAddr(e.regs.dstd), n) == self.address
    }

    // One word drawn, and noted if it goes to the address.
    #[tactic(auto, unfolding(xosera::specs::Memories::place))]
    fn note(self, e: Engine, vram: &mut [u16], known: Why) -> Noted
        requires { is_vram_length (length vram.old) ≡ true }
        ensures { NotedOne e vram.old self.address (3 - self.nibble) known result vram.new }
    {
        let reached = self.is_reached(e, vram.len());
        let drawn = engine::draw(e, vram);
        let why = if reached {
            self.after_reach(e, drawn, known)
        } else {
            known
        };
        Noted {
            word: drawn.word,
            why,
        }
    }

    // Passes words that are neither first nor last of their line, so that no edge mask is needed, up to one that goes to the address.
    // A `while`, as the two below: each turn draws, and the word that it took makes the next blit, so there is nothing to iterate over.
    fn pass_inside(self, b: Blit, vram: &mut [u16]) -> Blit
        requires { is_vram_length (length vram.old) ≡ true }
        ensures { Passed self.address b.engine vram.old result.engine vram.new }
    {
        let mut at = b;
        while at.engine.word != 0
            && !engine::last_word(at.engine)
            && !self.is_reached(at.engine, vram.len())
        {
            let drawn = engine::draw(at.engine, vram);
            at = at.advance(drawn.word);
        }
        at
    }

    // Passes words up to one that goes to the address, or to the blit's last. A `while`: the word drawn makes the next blit.
    fn pass(self, b: Blit, vram: &mut [u16]) -> Blit
        requires { is_vram_length (length vram.old) ≡ true }
        ensures { Passed self.address b.engine vram.old result.engine vram.new }
    {
        let mut at = b;
        while !engine::last_step(at.engine) && !self.is_reached(at.engine, vram.len()) {
            let drawn = engine::draw(at.engine, vram);
            at = self.pass_inside(at.advance(drawn.word), vram);
        }
        at
    }

    // All words of a blit, with what they did to the nibble. A `while`: the word drawn makes the next blit.
    fn account(self, regs: BlitRegs, vram: &mut [u16]) -> Why
        requires { is_vram_length (length vram.old) ≡ true }
        ensures { (result ≡ why_of regs vram.old (record { address = self.address; nibble = self.nibble })) ×
            (vram.new ≡ drawn_by regs vram.old) }
    {
        let mut at = Blit::launch(regs);
        let mut known = Why::NeverReached;
        while !engine::last_step(at.engine) {
            let noted = self.note(at.engine, vram, known);
            known = noted.why;
            at = self.pass(at.advance(noted.word), vram);
        }
        self.note(at.engine, vram, known).why
    }
}

// The nibble asked about, or refusal 1 or 15, by the lengths of the two memories.
#[tactic(auto, using(reasons::proofs::RefusalOrder::in_order), unfolding(xosera::specs::Memories::bad_pixel))]
fn spot_asked(before: usize, work: usize, address: u32, nibble: u32) -> Result<Spot, Refusal>
    ensures number { refused result ≡ why_refusal before work (record { address = address; nibble = nibble }) }
    ensures spot { IfOk result (λ s. (s.address ≡ address) × (s.nibble ≡ nibble)) }
{
    if !vram::is_vram_length(before) || work != before {
        return Err(Refusal::VramLength);
    }
    if nibble > 3 || address as usize >= before {
        return Err(Refusal::NoNibble);
    }
    Ok(Spot {
        address: address as usize,
        nibble,
    })
}

// Why a nibble is as it is after the blit of these registers on the memory before. The blit is done in the second memory. Address and
// nibble are numbers as C gives them: any is legal, and refused where there is no such place.
#[tactic(auto, using(reasons::proofs::RefusalOrder::in_order), unfolding(xosera::specs::Memories::bad_pixel))]
pub fn why(
    regs: BlitRegs,
    before: &[u16],
    work: &mut [u16],
    address: u32,
    nibble: u32,
) -> Result<Why, Refusal>
    ensures { Explains regs before.now work.old (record { address = address; nibble = nibble }) (numbers result) work.new }
{
    let spot = spot_asked(before.len(), work.len(), address, nibble)?;
    vram::copy(before, work);
    Ok(spot.account(regs, work))
}

// The same call with its answer in numbers, since C has no such enums.
pub fn why_in_numbers(
    regs: BlitRegs,
    before: &[u16],
    work: &mut [u16],
    address: u32,
    nibble: u32,
) -> WhyAnswer
    ensures { Explains regs before.now work.old (record { address = address; nibble = nibble }) result work.new }
{
    why(regs, before, work, address, nibble).into()
}
