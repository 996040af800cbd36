// Making a book, and opening it.
ghost use Rattle.std.specs.Prelude.{◌≡◌, ◌≤◌, map, length, IfOk, vec_capacity, unsigned_abs};
ghost use Rattle.book.specs.Reading.{reading, unopened, new_book};
ghost use Rattle.book.specs.Calls.{answered, after};
ghost use Rattle.book.specs.Opening.{seats_from, opening};

use crate::book::Book;
use crate::table::Table;
use refusal::{Fault, Refusal, counted, demand, on_line};
use std::alloc::{AllocError, Global};

// The member of each account is one of the house's.
fn check_seats(accounts: &[i64], members: u32) -> Result<(), Fault>
    requires { length accounts.now ≤ 64 }
    ensures { result ≡ seats_from members 1 accounts.now }
{
    for (i, member) in accounts.iter().enumerate() {
        on_line(
            counted(0, members, *member, Refusal::OutOfRange),
            i as u32 + 1,
        )?;
    }
    Ok(())
}

// Both counts and each account's member, in this order.
fn check_opening(members: i64, accounts: &[i64]) -> Result<u32, Fault>
    ensures { result ≡ opening members accounts.now }
{
    let members = counted(1, 33, members, Refusal::OutOfRange)?;
    demand(accounts.len() >= 1, Refusal::OutOfRange)?;
    demand(accounts.len() <= 64, Refusal::OutOfRange)?;
    check_seats(accounts, members)?;
    Ok(members)
}

// Writes the member of each account over what the list held.
fn seat(seats: &mut Vec<usize>, accounts: &[i64])
    requires room { 64 ≤ vec_capacity seats.old }
    requires few { length accounts.now ≤ 64 }
    ensures items { seats.new.items ≡ map unsigned_abs accounts.now }
    ensures capacity { vec_capacity seats.new ≡ vec_capacity seats.old }
{
    seats.clear();
    for member in accounts {
        seats.push_reserved(member.unsigned_abs() as usize);
    }
}

impl Book {
    // A book with no members and no accounts, and the memory for all that it will ever hold.
    pub fn new(heap: Global) -> Result<Book, AllocError>
        ensures { IfOk result (λ b. reading b ≡ unopened) }
    {
        let accounts = Vec::with_capacity(heap, 64)?;
        let table = Table::new(heap)?;
        Ok(Book {
            members: 0,
            accounts,
            closed: 0,
            given: 0,
            table,
        })
    }

    // Makes the book new, for so many members and for accounts that each have a member.
    pub fn open(&mut self, members: i64, accounts: &[i64]) -> Result<(), Fault>
        ensures answer { result ≡ answered (opening members accounts.now) (λ _. tt) }
        ensures after { reading self.new ≡ after (opening members accounts.now) (reading self.old) (λ m. new_book m (map unsigned_abs accounts.now)) }
    {
        let members = check_opening(members, accounts)?;
        seat(&mut self.accounts, accounts);
        self.table.swaps.clear();
        self.members = members;
        self.closed = 0;
        self.given = 0;
        Ok(())
    }
}
