// One client's deal worked through on paper, printed as it is worked out.

#![tactic(auto)]

mod position;
mod tables;
mod worked;

use fill_table::fills::FillTable;
use std::io;
use tables::{MarginTable, ResultTable, StopOutTable};
use worked::LEVERAGE;

fn main(rt: HostRuntime) -> io::Result<()> {
    println!(rt; "One client's deal on paper: leverage {LEVERAGE}, money in whole cents.")?;
    println!(rt; "")?;
    println!(rt; "{}", MarginTable)?;
    println!(rt; "{}", FillTable)?;
    println!(rt; "{}", ResultTable)?;
    print!(rt; "{}", StopOutTable)
}
