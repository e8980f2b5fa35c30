// The bench table of document 01, and the row that document 02, request 4 adds, run row by row through the public calls:
// each row's case, what it should give, what it gave, and whether they are the same.
#![tactic(auto)]

mod bench;
mod registers;
mod report;
mod shown;
mod table;

use crate::report::{Stopped, Table};

fn main(rt: HostRuntime) -> Result<(), Stopped> {
    println!(rt; "case | should give | gave | verdict")?;
    let mut table = Table { good: 0 };
    table::drawing(&rt, &mut table)?;
    table::places(&rt, &mut table)?;
    table::hosts(&rt, &mut table)?;
    table::timers(&rt, &mut table)?;
    table::queues(&rt, &mut table)?;
    table::shifted_lines(&rt, &mut table)?;
    println!(rt; "{} of 16 rows as they should be", table.good)?;
    Ok(())
}
