// The calls of the book: acceptance, ask and answer.
ghost use Rattle.std.specs.Prelude.{◌≡◌, ◌<◌, true, length, IfOk, Ok, ◌≢◌, slice_index_or};
ghost use Rattle.refusal.specs.Checks.{raised};
ghost use Rattle.swaps.specs.Swaps.{blank, timely_event};
ghost use Rattle.book.specs.Reading.{reading};
ghost use Rattle.book.specs.Calls.{parties, figures_of, offered, answered, after, taken, found, heard, stepped, asked, replied, changed};

use crate::book::Book;
use crate::table::place;
use crate::words::Word;
pub use crate::words::{Reply, Request};
use coupons::limits::amount;
use coupons::lines::Terms;
use refusal::{Fault, Refusal, counted, demand};
use swaps::limits::terms_of;
use swaps::state::{Event, State};
use swaps::swap::Swap;

// A swap as trading calls it in, in any figures: accounts, kind letter, millions of pesos, thousands of dollars, opening NPV, maturity.
#[derive(Clone, Copy, Debug, PartialEq, Eq)]
pub struct Offer {
    pub long: i64,
    pub short: i64,
    pub kind: char,
    pub millions: i64,
    pub thousands: i64,
    pub npv: i64,
    pub maturity: i64,
}

// Two accounts that differ.
fn parties(accounts: u32, long: i64, short: i64) -> Result<(u32, u32), Refusal>
    ensures answer { result ≡ parties accounts long short }
    ensures bounds { IfOk result (λ p. (p.0 < accounts) × (p.1 < accounts) × (p.0 ≢ p.1)) }
{
    let long = counted(0, accounts, long, Refusal::OutOfRange)?;
    let short = counted(0, accounts, short, Refusal::OutOfRange)?;
    demand(long != short, Refusal::SameAccount)?;
    Ok((long, short))
}

impl Offer {
    // Kind and nominals, NPV, and a maturity from the current session on.
    fn figures(&self, current: u32) -> Result<(Terms, i64, u32), Refusal>
        ensures { result ≡ figures_of self.now current }
    {
        let terms = terms_of(self.kind, self.millions, self.thousands)?;
        let npv = amount(self.npv)?.get();
        let maturity = counted(current, 100_001, self.maturity, Refusal::Session)?;
        Ok((terms, npv, maturity))
    }
}

impl Book {
    // The swap that an offer makes, checked in the order of the refusals.
    fn offered(&self, offer: &Offer) -> Result<Swap, Refusal>
        ensures { result ≡ offered (reading self.now) offer.now }
    {
        demand(self.given < 1_000_000, Refusal::NumbersUsedUp)?;
        let (long, short) = parties(self.accounts.len() as u32, offer.long, offer.short)?;
        let (terms, npv, maturity) = offer.figures(self.closed + 1)?;
        demand(self.table.swaps.len() < 256, Refusal::BookFull)?;
        Ok(Swap {
            number: self.given + 1,
            long,
            short,
            terms,
            npv,
            registered: self.closed + 1,
            maturity,
            state: State::Plain,
        })
    }

    // Takes in a swap between two accounts, and answers its number.
    pub fn accept(&mut self, offer: &Offer) -> Result<u32, Fault>
        ensures answer { result ≡ raised (answered (offered (reading self.old) offer.now) (λ s. s.number)) }
        ensures after { reading self.new ≡ after (offered (reading self.old) offer.now) (reading self.old) (taken (reading self.old)) }
    {
        let swap = self.offered(offer)?;
        self.given = swap.number;
        self.table.swaps.push_reserved(swap);
        Ok(swap.number)
    }

    // The place of the live swap of that number: their numbers rise.
    pub(crate) fn found(&self, number: i64) -> Result<usize, Refusal>
        ensures answer { result ≡ found (reading self.now) number }
        ensures within { IfOk result (λ i. i < length (reading self.now).swaps) }
    {
        let number = counted(1, 1_000_001, number, Refusal::NoSuchSwap)?;
        place(&self.table.swaps, number).ok_or(Refusal::NoSuchSwap)
    }

    // The place of the swap that a party's word is about, and what it asks or answers.
    fn heard<W: Word>(&self, word: &W) -> Result<(usize, Event), Refusal>
        ensures { result ≡ heard W.named W.event_of (reading self.now) word.now }
    {
        let i = self.found(word.number())?;
        let accounts = self.accounts.len() as u32;
        let event = word.event(accounts, self.closed, &self.table.swaps[i])?;
        Ok((i, event))
    }

    // An event changes the state of one swap, or is refused and changes nothing.
    fn step(&mut self, i: usize, event: Event) -> Result<(), Refusal>
        requires within { i < length (reading self.old).swaps }
        requires timely { timely_event (reading self.old).closed (slice_index_or (reading self.old).swaps i blank).maturity event ≡ true }
        ensures answer { result ≡ answered (stepped (reading self.old) (Ok (i, event))) (λ _. tt) }
        ensures after { reading self.new ≡ after (stepped (reading self.old) (Ok (i, event))) (reading self.old) (changed (reading self.old)) }
    {
        self.table.change(i, event)
    }

    // A party asks to end a swap early. Ask and answer are two calls of the house, and what they share is in `heard` and `step`.
    pub fn ask(&mut self, request: &Request) -> Result<(), Fault>
        ensures answer { result ≡ raised (answered (asked (reading self.old) request.now) (λ _. tt)) }
        ensures after { reading self.new ≡ after (asked (reading self.old) request.now) (reading self.old) (changed (reading self.old)) }
    {
        let (i, event) = self.heard(request)?;
        self.step(i, event)?;
        Ok(())
    }

    // The other party agrees to a request, or does not.
    pub fn answer(&mut self, reply: &Reply) -> Result<(), Fault>
        ensures answer { result ≡ raised (answered (replied (reading self.old) reply.now) (λ _. tt)) }
        ensures after { reading self.new ≡ after (replied (reading self.old) reply.now) (reading self.old) (changed (reading self.old)) }
    {
        let (i, event) = self.heard(reply)?;
        self.step(i, event)?;
        Ok(())
    }
}
