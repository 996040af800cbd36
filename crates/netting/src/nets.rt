// The nets of accounts: the figures where an account is long, and their opposites where it is short.
ghost use Rattle.std.specs.Prelude.{◌≡◌, ℕ, ◌*◌, ◌<◌, ◌≤◌, length, slice_index_or};
ghost use Rattle.std.specs.List.{AllByRecursion};
ghost use Rattle.netting.specs.Group.{limit};
ghost use Rattle.netting.specs.Nets.{share_of, net_of, weight, together, weighed, Within};
ghost use Rattle.netting.specs.Laws.{NettingLaws};

use crate::figure::Figure;

// A figure that the long account gets and the short one gives.
#[derive(Clone, Copy, Debug, PartialEq, Eq)]
pub struct Entry<F> {
    pub long: usize,
    pub short: usize,
    pub figure: F,
}

impl<F: Figure> Entry<F> {
    // What the entry brings an account.
    pub fn share(&self, account: usize) -> F
        requires { 2 * F.group.size self.now.figure ≤ limit }
        ensures { result ≡ share_of F.group self.now account }
    {
        let got = if self.long == account {
            self.figure
        } else {
            F::ZERO
        };
        let given = if self.short == account {
            self.figure.opposite()
        } else {
            F::ZERO
        };
        got.plus(given)
    }
}

// What an account gets out of the entries.
pub fn net_of<F: Figure>(entries: &[Entry<F>], account: usize) -> F
    requires { 2 * weight F.group entries.now ≤ limit }
    ensures { result ≡ net_of F.group entries.now account }
{
    let mut sum = F::ZERO;
    for e in entries {
        sum = sum.plus(e.share(account));
    }
    sum
}

// Fills the places with the nets of the accounts from 0 on. They add up to nothing where no entry names an account without a place.
pub fn nets_into<F: Figure>(entries: &[Entry<F>], nets: &mut [F])
    requires { 2 * weight F.group entries.now ≤ limit }
    ensures each { (k : ℕ) (d : F) → k < length nets.new → slice_index_or nets.new k d ≡ net_of F.group entries.now k }
    ensures balanced { AllByRecursion (Within (length nets.old)) entries.now → together F.group nets.new ≡ F.group.none }
    ensures light { weighed F.group nets.new ≤ 2 * weight F.group entries.now }
{
    for (account, net) in nets.iter_mut().enumerate() {
        *net = net_of(entries, account);
    }
}

// What netting promises of any figure.
pub fn netting_laws<F: Figure>()
    ensures { NettingLaws F.group }
{}
