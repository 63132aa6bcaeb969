// Which of an account's positions a stop-out closes first.
ghost use Rattle.std.specs.Prelude.{◌≡◌, ◌<◌, ◌≤◌, length, nat_lt};
ghost use Rattle.fixed.specs.Items.{items};
ghost use Rattle.rules.specs.Closing.{Picks, Told, NamesOne, tickets, worst_first, earliest_first};
ghost use Rattle.rules.specs.Least.{first_least};
ghost use Rattle.rules.specs.Named.{at};
ghost use Rattle.rules.specs.Lemmas.Orders.{worst_is};
ghost use Rattle.rules.specs.Lemmas.Tickets.{first_names_one};

use crate::candidate::Candidate;
use crate::least::first_least;
use fixed::FixedList;
use limits::LIVE_TICKETS;

// A rule's meaning is the place that it names, as a function of the list that it is told.
pub trait ClosingRule {
    ghost picks: { Self → Picks };

    fn pick(&self, candidates: &[Candidate]) -> usize
        requires { Told candidates.now }
        ensures { result ≡ picks self.now candidates.now };

    // The law that each rule owes: it stands below the last method that a rule writes, which makes it one.
    ghost within: { (c : Self) → NamesOne (picks c) };

    // The candidate at the place that the rule names.
    final fn named(&self, candidates: &[Candidate]) -> Candidate
        requires { Told candidates.now }
        ensures { result ≡ at candidates.now (picks self.now candidates.now) }
    {
        candidates[self.pick(candidates)]
    }
}

// The smallest floating result; of equal ones, that of the lowest ticket.
#[derive(Clone, Copy)]
pub struct WorstFirst;

impl ClosingRule for WorstFirst {
    ghost picks = { λ _. worst_first };

    ghost within = { λ c cs told. (worst_is cs told).within };

    fn pick(&self, candidates: &[Candidate]) -> usize {
        smallest_result(candidates)
    }
}

// The lowest ticket.
#[derive(Clone, Copy)]
pub struct EarliestFirst;

impl ClosingRule for EarliestFirst {
    ghost picks = { λ _. earliest_first };

    ghost within = { λ _. first_names_one };

    fn pick(&self, candidates: &[Candidate]) -> usize {
        lowest_number(ticket_numbers(candidates).as_slice())
    }
}

fn smallest_result(candidates: &[Candidate]) -> usize
    requires { 0 < length candidates.now }
    ensures { result ≡ worst_first candidates.now }
{
    first_least(candidates)
}

fn lowest_number(numbers: &[u16]) -> usize
    requires { 0 < length numbers.now }
    ensures { result ≡ first_least nat_lt numbers.now }
{
    first_least(numbers)
}

// The candidates' ticket numbers: a type has one order, and candidates have that by result.
fn ticket_numbers(candidates: &[Candidate]) -> FixedList<u16, LIVE_TICKETS>
    requires { length candidates.now ≤ 32 }
    ensures { items result ≡ tickets candidates.now }
{
    let mut numbers = FixedList::new_in([0; LIVE_TICKETS]);
    for candidate in candidates {
        numbers.push(candidate.ticket);
    }
    numbers
}
