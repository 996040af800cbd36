// A sheet as it is read, line by line.
ghost use Rattle.std.specs.Prelude.{◌≡◌, ◌≤◌, ◌==◌, ◌&&◌, not, slice_index, pos, IfSome, Some, codes, unsigned_abs};
ghost use Rattle.sheet.specs.declared.reading.Next.TheVariants.{Session, CentavosOf};
ghost use Rattle.sheet.specs.Numerals.{trim, numeral, field, onward};
ghost use Rattle.sheet.specs.Reading.{start, step, step_at, side, at_end, member_or_end, netted};

use crate::order::{Side, balanced, count_orders};
use members::{MEMBERS, Member};
use std::str;

// A cash sheet: its session, and the net of each member, a signed figure as netting gives it. A negative net is a charge, a positive one a credit.
#[derive(Clone, Copy, Debug, PartialEq, Eq)]
pub struct Sheet {
    pub session: u32,
    pub nets: [i64; MEMBERS],
}

// What the next line has to be. The laws of the reader speak of this state, so it is an enum and no function to be called next.
#[derive(Clone, Copy)]
pub(crate) enum Next {
    Session,
    // a member from `lowest` on, or the end
    MemberOrEnd { lowest: usize },
    SideOf { member: Member },
    CentavosOf { member: Member, side: Side },
    Nothing,
}

#[derive(Clone, Copy)]
pub(crate) struct Reading {
    pub(crate) sheet: Sheet,
    pub(crate) next: Next,
}

// At least one digit, no needless zero in front, and no plus, which `parse` would take.
fn is_trim(digits: &[u8]) -> bool
    ensures { result ≡ (trim digits.now && not (slice_index digits.now 0 == 43)) }
{
    match digits {
        [] => false,
        [b'0', _, ..] => false,
        [b'+', ..] => false,
        _ => true,
    }
}

// The number that a numeral writes, with no needless zero in front.
fn numeral(digits: &[u8]) -> Option<u64>
    ensures { result ≡ numeral 0 18446744073709551615 digits.now }
{
    if !is_trim(digits) {
        return None;
    }
    str::from_utf8(digits).ok()?.parse().ok()
}

// The number from `low` to `high` of a line that begins with the key.
fn field(line: &[u8], key: &[u8], low: u64, high: u64) -> Option<u64>
    ensures { result ≡ field key.now low high line.now }
{
    let n = numeral(line.strip_prefix(key)?)?;
    (low..=high).contains(&n).then_some(n)
}

// The line of an order's side.
fn side(line: &[u8]) -> Option<Side>
    ensures { result ≡ side line.now }
{
    [Side::Charge, Side::Credit]
        .into_iter()
        .find(|side| line == side.line().as_bytes())
}

// The last line, where it counts the orders and they add up.
fn at_end(line: &[u8], nets: &[i64; MEMBERS]) -> Option<Next>
    ensures { result ≡ at_end nets.now line.now }
{
    let count = count_orders(nets) as u64;
    field(line, b"end=", count, count)?;
    balanced(nets).then_some(Next::Nothing)
}

// The member of the next order, from `lowest` on.
fn member(line: &[u8], lowest: usize) -> Option<Member>
    ensures { result ≡ field (codes "member=") lowest 31 line.now }
{
    let number = field(line, b"member=", lowest as u64, MEMBERS as u64 - 1)?;
    Member::new(number as usize)
}

// The line of the next order's member, or the last line.
fn member_or_end(line: &[u8], lowest: usize, nets: &[i64; MEMBERS]) -> Option<Next>
    ensures { result ≡ member_or_end (field (codes "member=") lowest 31 line.now) (at_end nets.now line.now) }
{
    match member(line, lowest) {
        Some(member) => Some(Next::SideOf { member }),
        None => at_end(line, nets),
    }
}

// The amount of an order.
fn centavos(line: &[u8]) -> Option<i64>
    ensures answer { result ≡ onward (field (codes "centavos=") 1 200000000000000000 line.now) (λ n. Some (pos n)) }
    ensures bound { IfSome result (λ z. unsigned_abs z ≤ 200000000000000000) }
{
    let n = field(line, b"centavos=", 1, 200_000_000_000_000_000)?;
    Some(n as i64)
}

// The sheet with the net of one member more.
fn netted(sheet: Sheet, member: Member, net: i64) -> Reading
    ensures { result ≡ netted sheet member net }
{
    let member = member.index();
    let mut nets = sheet.nets;
    nets[member] = net;
    Reading {
        sheet: Sheet { nets, ..sheet },
        next: Next::MemberOrEnd { lowest: member + 1 },
    }
}

// The amount of a member's order.
fn with_order(sheet: Sheet, member: Member, side: Side, line: &[u8]) -> Option<Reading>
    ensures { result ≡ step_at (CentavosOf member side) sheet line.now }
{
    let amount = centavos(line)?;
    let net = match side {
        Side::Charge => -amount,
        Side::Credit => amount,
    };
    Some(netted(sheet, member, net))
}

// The first line.
fn with_session(sheet: Sheet, line: &[u8]) -> Option<Reading>
    ensures { result ≡ step_at Session sheet line.now }
{
    let session = field(line, b"session=", 1, 100_000)?;
    Some(Reading {
        sheet: Sheet {
            session: session as u32,
            ..sheet
        },
        next: Next::MemberOrEnd { lowest: 0 },
    })
}

impl Reading {
    // Before the first line.
    #[tactic(auto, unfolding(crate::specs::Reading::start))]
    pub(crate) fn start() -> Reading
        ensures { result ≡ start }
    {
        Reading {
            sheet: Sheet {
                session: 0,
                nets: [0; MEMBERS],
            },
            next: Next::Session,
        }
    }

    // The next line: none where it is bad.
    #[tactic(auto, unfolding(crate::specs::Reading::step))]
    pub(crate) fn take(self, line: &[u8]) -> Option<Reading>
        ensures { result ≡ step self line.now }
    {
        let Reading { sheet, next } = self;
        let next = match next {
            Next::Session => return with_session(sheet, line),
            Next::MemberOrEnd { lowest } => member_or_end(line, lowest, &sheet.nets)?,
            Next::SideOf { member } => {
                let side = side(line)?;
                Next::CentavosOf { member, side }
            }
            Next::CentavosOf { member, side } => return with_order(sheet, member, side, line),
            Next::Nothing => return None,
        };
        Some(Reading { sheet, next })
    }
}
