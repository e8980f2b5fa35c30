// The table as it is printed.
use std::{fmt, io};
use xosera::Refusal;

// Why the program ends before its last row: it cannot print, or a call was refused that no row expects to be.
#[derive(Drop)]
pub enum Stopped {
    Printing(io::Error),
    Refused(Refusal),
}

// What `main` ends with is printed by this: where printing fails, the error as it is.
impl fmt::Debug for Stopped {
    fn fmt<W: fmt::Write>(&self, f: &mut fmt::Formatter<W>) -> fmt::Result {
        match self {
            Stopped::Printing(error) => fmt::Debug::fmt(error, f),
            Stopped::Refused(refused) => fmt::Debug::fmt(refused, f),
        }
    }
}

impl From<io::Error> for Stopped {
    fn from(error: io::Error) -> Stopped {
        Stopped::Printing(error)
    }
}

impl From<Refusal> for Stopped {
    fn from(refused: Refusal) -> Stopped {
        Stopped::Refused(refused)
    }
}

// How many rows were as they should be.
#[derive(Clone, Copy)]
pub struct Table {
    pub good: u64,
}

impl Table {
    // A row: its case, what it should give, what it gave, and the verdict.
    pub fn row<T: fmt::Display + PartialEq + Drop>(
        &mut self,
        rt: &impl Print,
        case: &str,
        should: T,
        gave: T,
    ) -> io::Result<()> {
        let good = gave == should;
        if good {
            self.good = self.good.wrapping_add(1);
        }
        let verdict = if good { "ok" } else { "WRONG" };
        println!(rt; "{case} | {should} | {gave} | {verdict}")
    }
}
