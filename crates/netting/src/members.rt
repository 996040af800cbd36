// The nets of members: a member's net adds the nets of its accounts.
ghost use Rattle.std.specs.Prelude.{◌≡◌, ◌≤◌, length, slice_index_or};
ghost use Rattle.netting.specs.Group.{limit};
ghost use Rattle.netting.specs.Nets.{only, member_net, weighed};

use crate::figure::Figure;

// An account's net where the account is the member's, and nothing where it is another's.
fn owned<F: Figure>(net: F, member: usize, whose: usize) -> F
    ensures { result ≡ only F.group member net whose }
{
    if member == whose { net } else { F::ZERO }
}

// What a member gets, out of the net and the member of each account: two slices, since the nets are lent by whoever closes a session and the
// members are the house's own.
pub fn member_net<F: Figure>(nets: &[F], members: &[usize], whose: usize) -> F
    requires paired { length nets.now ≡ length members.now }
    requires light { weighed F.group nets.now ≤ limit }
    ensures { result ≡ member_net F.group members.now (λ a. slice_index_or nets.now a F.group.none) whose }
{
    let mut sum = F::ZERO;
    for (net, member) in nets.iter().zip(members) {
        sum = sum.plus(owned(*net, *member, whose));
    }
    sum
}
