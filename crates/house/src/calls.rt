// The calls of the house: what moves the book waits until settlement is through.
ghost use Rattle.std.specs.Prelude.{◌≡◌, ◌+◌, min, map, length, take, drop, replicate, pos, IfOk, unsigned_abs};
ghost use Rattle.refusal.specs.Checks.{check, raised};
ghost use Rattle.refusal.specs.declared.Refusal.TheVariants.{SettlementUnderWay};
ghost use Rattle.keeper.specs.Order.{first_of};
ghost use Rattle.keeper.specs.First.{FirstOf};
ghost use Rattle.book.specs.Reading.{unopened, new_book};
ghost use Rattle.book.specs.Opening.{opening};
ghost use Rattle.book.specs.Calls.{answered, taken, changed, swap_of};
ghost use Rattle.swaps.specs.Ends.{sooner, end_of};
ghost use Rattle.house.specs.Holding.{holding, new_house, settled};
ghost use Rattle.house.specs.Calls.{afterwards, accepting, asking, answering, with_book};

use crate::house::House;
use book::book::Book;
use book::calls::{Offer, Reply, Request};
use members::MEMBERS;
use refusal::{Fault, Refusal, demand};
use sheet::order::Order;
use std::alloc::{AllocError, Global};
use swaps::ends::End;
use swaps::swap::Swap;

// No order is outstanding.
fn settled(orders: &[Option<Order>]) -> bool
    ensures { result ≡ settled orders.now }
{
    orders.iter().all(|order| order.is_none())
}

impl House {
    // A house with no members and no accounts, and the memory for all that it will ever hold.
    pub fn new(heap: Global) -> Result<House, AllocError>
        ensures { IfOk result (λ h. holding h ≡ new_house unopened) }
    {
        Ok(House {
            book: Book::new(heap)?,
            orders: [None; MEMBERS],
        })
    }

    // Makes the house new, whatever it held.
    pub fn open(&mut self, members: i64, accounts: &[i64]) -> Result<(), Fault>
        ensures answer { result ≡ answered (opening members accounts.now) (λ _. tt) }
        ensures after { holding self.new ≡ afterwards (opening members accounts.now) (holding self.old) (λ m. new_house (new_book m (map unsigned_abs accounts.now))) }
    {
        self.book.open(members, accounts)?;
        self.orders = [None; MEMBERS];
        Ok(())
    }

    // What moves the book waits until no order is outstanding.
    fn check_settled(&self) -> Result<(), Refusal>
        ensures { result ≡ check (settled (holding self.now).orders) SettlementUnderWay }
    {
        demand(settled(&self.orders), Refusal::SettlementUnderWay)
    }

    // Takes in a swap between two accounts, and answers its number. What this call and the next two share is `check_settled`.
    pub fn accept(&mut self, offer: &Offer) -> Result<u32, Fault>
        ensures answer { result ≡ raised (answered (accepting (holding self.old) offer.now) (λ s. s.number)) }
        ensures after { holding self.new ≡ afterwards (accepting (holding self.old) offer.now) (holding self.old) (λ s. with_book (holding self.old) (taken (holding self.old).book s)) }
    {
        self.check_settled()?;
        self.book.accept(offer)
    }

    // A party asks to end a swap early.
    pub fn ask(&mut self, request: &Request) -> Result<(), Fault>
        ensures answer { result ≡ raised (answered (asking (holding self.old) request.now) (λ _. tt)) }
        ensures after { holding self.new ≡ afterwards (asking (holding self.old) request.now) (holding self.old) (λ q. with_book (holding self.old) (changed (holding self.old).book q)) }
    {
        self.check_settled()?;
        self.book.ask(request)
    }

    // The other party agrees to a request, or does not.
    pub fn answer(&mut self, reply: &Reply) -> Result<(), Fault>
        ensures answer { result ≡ raised (answered (answering (holding self.old) reply.now) (λ _. tt)) }
        ensures after { holding self.new ≡ afterwards (answering (holding self.old) reply.now) (holding self.old) (λ q. with_book (holding self.old) (changed (holding self.old).book q)) }
    {
        self.check_settled()?;
        self.book.answer(reply)
    }

    // Fills the places with the first ends, by session and then by swap number, and answers how many it filled; the others stay.
    pub fn diary(&self, places: &mut [End]) -> usize
        ensures count { result ≡ min (length places.old) (length (holding self.now).book.swaps) }
        ensures held { take result places.new ≡ first_of sooner (length places.old) (map end_of (holding self.now).book.swaps) }
        ensures rest { drop result places.new ≡ drop result places.old }
        ensures first { FirstOf sooner (length places.old) (map end_of (holding self.now).book.swaps) (take result places.new) }
    {
        self.book.diary(places)
    }

    // The session after the last that was closed.
    pub fn current(&self) -> u32
        ensures { result ≡ (holding self.now).book.closed + 1 }
    {
        self.book.current()
    }

    // How many swaps are live.
    pub fn live(&self) -> usize
        ensures { result ≡ length (holding self.now).book.swaps }
    {
        self.book.live()
    }

    // The live swap of that number.
    pub fn swap(&self, number: i64) -> Option<Swap>
        ensures { result ≡ swap_of (holding self.now).book number }
    {
        self.book.swap(number)
    }
}
