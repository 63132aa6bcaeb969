// One client's account on a moving market, printed as it is worked out.

#![tactic(auto)]

mod client;
mod closing;
mod quotes;

use client::client;
use closing::ClosingTable;
use fill_table::fills::FillTable;
use joined::unit::unit_kinds;
use quotes::{QUOTES, listed_market};
use statement::orders::OrderTable;
use statement::statement::Statement;
use std::io;
use terms::quote::Prices;
use valuation::worth::Valuation;

fn main(rt: HostRuntime) -> io::Result<()> {
    let account = client();
    let mut market = listed_market();
    println!(rt;
        "One account: leverage {}, stop-out level {}, {} paid in; money in whole cents.",
        account.leverage(),
        account.stop_out(),
        account.paid_in()
    )?;
    println!(rt; "")?;
    println!(rt; "{}", OrderTable { account })?;
    for (instrument, bid, ask) in QUOTES {
        market.set_prices(instrument, Prices { bid, ask });
        println!(rt; "Quote of instrument {instrument}: {bid}/{ask}")?;
        println!(rt; "{}", Statement { account, market })?;
    }
    let positions = Valuation::new(&unit_kinds(), &market).open_positions(&account);
    println!(rt; "{}", ClosingTable { positions })?;
    print!(rt; "{}", FillTable)
}
