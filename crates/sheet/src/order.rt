// An order of a member, and what a list of nets orders.
ghost use Rattle.std.specs.Prelude.{◌≡◌, ◌≤◌, length};
ghost use Rattle.sheet.specs.Orders.{order_of, moved, orders, sum_of, total, nil};
ghost use Rattle.sheet.specs.Text.{side_line};

use std::cmp::Ordering;

// A charge is what a member owes the house, and a credit what the house owes the member.
#[derive(Clone, Copy, Debug, PartialEq, Eq)]
pub enum Side {
    Charge,
    Credit,
}

impl Side {
    // The line of a sheet that tells it.
    pub(crate) fn line(self) -> &'static str
        ensures line { result.now ≡ side_line self }
        ensures len { length result.now ≡ 12 }
    {
        match self {
            Side::Charge => "order=charge",
            Side::Credit => "order=credit",
        }
    }
}

// What a member's net comes to.
#[derive(Clone, Copy, Debug, PartialEq, Eq)]
pub struct Order {
    pub side: Side,
    pub centavos: u64,
}

// The order of a net: a charge where it is negative, a credit where it is positive.
pub fn order_of(net: i64) -> Option<Order>
    ensures { result ≡ order_of net }
{
    let side = match net.cmp(&0) {
        Ordering::Less => Side::Charge,
        Ordering::Equal => return None,
        Ordering::Greater => Side::Credit,
    };
    Some(Order {
        side,
        centavos: net.unsigned_abs(),
    })
}

// How many orders the nets make.
pub(crate) fn count_orders(nets: &[i64]) -> usize
    ensures answer { result ≡ orders nets.now }
    ensures bound { result ≤ length nets.now }
{
    nets.iter().filter(|net| order_of(**net).is_some()).count()
}

// The centavos that a net moves on that side.
fn moved(side: Side, net: i64) -> u64
    ensures { result ≡ moved side (order_of net) }
{
    match order_of(net) {
        Some(order) if order.side == side => order.centavos,
        _ => 0,
    }
}

// What the orders of that side add up to.
pub(crate) fn sum_of(side: Side, nets: &[i64]) -> u128
    ensures { result ≡ sum_of side nets.now }
{
    nets.iter().map(|net| u128::from(moved(side, *net))).sum()
}

// Whether charges and credits have the same sum.
#[tactic(auto, using(crate::proofs::Nets::nil_total))]
pub(crate) fn balanced(nets: &[i64]) -> bool
    ensures { result ≡ nil (total nets.now) }
{
    sum_of(Side::Charge, nets) == sum_of(Side::Credit, nets)
}
