// The tables of the print-out, each line worked out as it is written.
use crate::worked::{LEVERAGE, POSITIONS, candidates};
use rules::closing::{ClosingRule, EarliestFirst, WorstFirst};
use std::fmt;
use terms::side::Side;

pub struct MarginTable;

impl fmt::Display for MarginTable {
    fn fmt<W: fmt::Write>(&self, f: &mut fmt::Formatter<W>) -> fmt::Result {
        writeln!(
            f,
            "Margin needed   kind    size  percent  volume   price  margin"
        )?;
        for (name, position, _) in POSITIONS {
            let contract = position.contract;
            writeln!(
                f,
                "  {:<12}  {:>4}  {:>6}  {:>7}  {:>6}  {:>6}  {:>6}",
                name,
                contract.number,
                contract.size,
                contract.percentage,
                position.volume,
                position.opened,
                position.margin(LEVERAGE)
            )?;
        }
        Ok(())
    }
}

pub struct ResultTable;

impl fmt::Display for ResultTable {
    fn fmt<W: fmt::Write>(&self, f: &mut fmt::Formatter<W>) -> fmt::Result {
        writeln!(f, "Closing pays    opened  closed     buy    sell")?;
        for (name, position, closed) in POSITIONS {
            writeln!(
                f,
                "  {:<12}  {:>6}  {:>6}  {:>6}  {:>6}",
                name,
                position.opened,
                closed,
                position.result(Side::Buy, closed),
                position.result(Side::Sell, closed)
            )?;
        }
        Ok(())
    }
}

pub struct StopOutTable;

impl fmt::Display for StopOutTable {
    fn fmt<W: fmt::Write>(&self, f: &mut fmt::Formatter<W>) -> fmt::Result {
        let candidates = candidates();
        writeln!(f, "Stop-out        ticket  result  margin")?;
        for candidate in candidates {
            writeln!(
                f,
                "                {:>6}  {:>6}  {:>6}",
                candidate.ticket, candidate.result, candidate.margin
            )?;
        }
        writeln!(
            f,
            "  worst first     {:>4}",
            WorstFirst.named(&candidates).ticket
        )?;
        writeln!(
            f,
            "  earliest first  {:>4}",
            EarliestFirst.named(&candidates).ticket
        )
    }
}
