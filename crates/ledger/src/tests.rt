// Both books through the same calls, and what each promises where it is opened.
ghost use Rattle.std.specs.Prelude.{◌≡◌, IfOk};
ghost use Rattle.ledger.specs.Books.{deposits, line_funds};
ghost use Rattle.ledger.specs.Lines.{Untouched};
ghost use Rattle.ledger.specs.Openings.{opened, meaning};

use crate::deposit::DepositBook;
use crate::lines::LineBook;
use crate::transfers::{Transfer, run, side_by_side};
use crate::*;
use refusal::Fault;
use std::test::Fail;

const TRANSFERS: [Transfer; 5] = [
    Transfer::Charge {
        member: 1,
        amount: 301,
    },
    Transfer::Charge {
        member: 1,
        amount: 300,
    },
    Transfer::Credit {
        member: 0,
        amount: 250,
    },
    Transfer::TopUp {
        member: 31,
        amount: AMOUNT_LIMIT,
    },
    Transfer::TopUp {
        member: 32,
        amount: 1,
    },
];

fn deposit_book(funds: &[i64], house: i64) -> Result<DepositBook, Fault>
    ensures { meaning deposits result ≡ opened funds.now house }
{
    DepositBook::open(funds, house)
}

fn line_book(lines: &[i64], house: i64) -> Result<LineBook, Fault>
    ensures funds { meaning line_funds result ≡ opened lines.now house }
    ensures undrawn { IfOk result (λ b. Untouched b.accounts.lines) }
{
    LineBook::open(lines, house)
}

#[test]
fn two_books_decide_alike(rt: HostRuntime) -> Result<(), Fail> {
    let mut deposits = deposit_book(&[100, 300], 0)?;
    let mut lines = line_book(&[100, 300], 0)?;
    assert!(rt; side_by_side(&mut deposits, &mut lines, &TRANSFERS));
    assert_eq!(rt; deposits.member_fund(0), 350);
    assert_eq!(rt; lines.member_fund(0), 350);
    assert_eq!(rt; lines.member_fund(1), 0);
    assert_eq!(rt; lines.house_fund(), 50);
    Ok(())
}

#[test]
fn a_run_writes_what_was_decided(rt: HostRuntime) -> Result<(), Fail> {
    let mut book = LineBook::open(&[100, 300], 0)?;
    let mut answers = [Err(Rejected); 6];
    run(&mut book, &TRANSFERS, &mut answers)?;
    let [first, second, .., last] = answers;
    assert_eq!(rt; first, Err(Rejected));
    assert_eq!(rt; second, Ok(()));
    assert_eq!(rt; last, Err(Rejected));
    assert!(rt; run(&mut book, &TRANSFERS, &mut [Ok(()); 4]).is_err());
    assert_eq!(rt; book.member_fund(31), AMOUNT_LIMIT);
    Ok(())
}

#[test]
fn a_ceiling_may_be_reached(rt: HostRuntime) -> Result<(), Fail> {
    let mut book = DepositBook::open(&[5, 4_000_000_000_000_000_000], 3_999_999_999_999_999_998)?;
    assert_eq!(rt; book.charge(0, 3), Err(Rejected));
    assert_eq!(rt; book.charge(0, 2), Ok(()));
    assert_eq!(rt; book.top_up(1, 1), Err(Rejected));
    assert_eq!(rt; book.house_fund(), FUND_LIMIT);
    assert_eq!(rt; book.member_fund(32), 0);
    Ok(())
}

#[test]
fn an_opening_is_refused_at_its_place(rt: HostRuntime) {
    let place = match LineBook::open(&[0, 4_000_000_000_000_000_001, -1], -1) {
        Ok(_) => 0,
        Err(fault) => fault.line(),
    };
    assert_eq!(rt; place, 2);
    let number = match DepositBook::open(&[-1; 33], 0) {
        Ok(_) => 0,
        Err(fault) => fault.refusal().number(),
    };
    assert_eq!(rt; number, 10);
}
