// What an account is worth: 100,000 paid in at leverage 100, a buy of 50 at 13,502, and a sell of 20 at 13,500.
// Each figure is a function of its own, since its contract states its numbers as a theorem.
ghost use Rattle.std.specs.Prelude.{◌≡◌, pos, negsuc};
ghost use Rattle.joined.specs.UnitKinds.{unit_pays, unit_needs};
ghost use Rattle.account.specs.Accounts.{model};
ghost use Rattle.positions.specs.Positions.{floating};
ghost use Rattle.valuation.specs.Valuation.{open_positions, equity, margin};
ghost use Rattle.account_figures.specs.Accounts.{quoted, buyer, hedger};

use account::account::Account;
use joined::unit::unit_kinds;
use market::listing::Listing;
use market::market::Market;
use terms::contract::Contract;
use terms::protection::NO_PROTECTION;
use terms::quote::Prices;
use terms::side::Side;
use tickets::ticket::{TicketDetails, TicketState};
use valuation::worth::Valuation;

// A market on which instrument 1 is a direct one of size 10 and hedge share 50.
fn quoted(bid: u32, ask: u32) -> Market
    ensures { result ≡ quoted bid ask }
{
    let listing = Listing {
        contract: Contract {
            number: 0,
            size: 10,
            percentage: 0,
        },
        near: 30,
        hedge: 50,
        buy_swap: -250,
        sell_swap: 100,
    };
    let mut market = Market::new();
    market.list(1, listing);
    market.set_prices(1, Prices { bid, ask });
    market
}

fn buyer() -> Account
    ensures { model result ≡ buyer }
{
    let mut account = Account::new(100, 60);
    account.pay_in(100_000);
    let bought = TicketDetails {
        instrument: 1,
        volume: 50,
        protection: NO_PROTECTION,
        state: TicketState::Position {
            side: Side::Buy,
            price: 13_502,
        },
    };
    let _ = account.add(bought);
    account
}

fn hedger() -> Account
    ensures { model result ≡ hedger }
{
    let mut account = buyer();
    let sold = TicketDetails {
        instrument: 1,
        volume: 20,
        protection: NO_PROTECTION,
        state: TicketState::Position {
            side: Side::Sell,
            price: 13_500,
        },
    };
    let _ = account.add(sold);
    account
}

pub fn margin_of_a_buy() -> u64
    ensures answered { result ≡ 67510 }
    ensures defined { margin unit_pays unit_needs (quoted 13500 13502) buyer ≡ 67510 }
{
    Valuation::new(&unit_kinds(), &quoted(13_500, 13_502)).margin(&buyer())
}

pub fn floating_of_a_buy() -> i64
    ensures answered { result ≡ negsuc 999 }
    ensures defined { floating (open_positions unit_pays unit_needs (quoted 13500 13502) buyer) ≡ negsuc 999 }
{
    let market = quoted(13_500, 13_502);
    let positions = Valuation::new(&unit_kinds(), &market).open_positions(&buyer());
    positions.floating()
}

pub fn margin_with_a_hedge() -> u64
    ensures answered { result ≡ 81010 }
    ensures defined { margin unit_pays unit_needs (quoted 13500 13502) hedger ≡ 81010 }
{
    Valuation::new(&unit_kinds(), &quoted(13_500, 13_502)).margin(&hedger())
}

pub fn equity_at_13384() -> i64
    ensures answered { result ≡ pos 41000 }
    ensures defined { equity unit_pays unit_needs (quoted 13384 13386) buyer ≡ pos 41000 }
{
    Valuation::new(&unit_kinds(), &quoted(13_384, 13_386)).equity(&buyer())
}

pub fn equity_at_13383() -> i64
    ensures answered { result ≡ pos 40500 }
    ensures defined { equity unit_pays unit_needs (quoted 13383 13385) buyer ≡ pos 40500 }
{
    Valuation::new(&unit_kinds(), &quoted(13_383, 13_385)).equity(&buyer())
}
