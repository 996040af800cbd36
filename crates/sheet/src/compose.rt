// Composes the text of a sheet on a page.
ghost use Rattle.std.specs.Prelude.{◌≡◌, ◌+◌, ◌≤◌, true, ◌++◌, length, decimal, unsigned_abs};
ghost use Rattle.std.specs.List.{flat_map};
ghost use Rattle.arrayvec.specs.ArrayString.{array_string_len};
ghost use Rattle.sheet.specs.Orders.{order_of};
ghost use Rattle.sheet.specs.Text.{ended, order_lines, text};
ghost use Rattle.sheet.specs.Writing.{payable};

use crate::order::{count_orders, order_of};
use arrayvec::ArrayString;
use itoa::Buffer;
use members::Member;

// Room for the text of one sheet.
pub(crate) type Page = ArrayString<2048>;

// Adds a line of a key and a number.
fn add_line(page: &mut Page, key: &str, n: u64)
    requires { array_string_len page.old + (length key.now + length (decimal n) + 1) ≤ 2048 }
    ensures text { page.new.bytes ≡ page.old.bytes ++ ended (key.now ++ decimal n) }
    ensures len { array_string_len page.new ≡ array_string_len page.old + (length key.now + length (decimal n) + 1) }
{
    page.push_str(key);
    page.push_str(Buffer::new().format(n));
    page.push_str("\n");
}

// Adds the three lines of the order that a member's net makes, if it makes one.
#[tactic(auto, using(crate::proofs::Lines::member_long, crate::proofs::Lines::amount_long))]
fn add_net(page: &mut Page, member: Member, net: i64)
    requires room { array_string_len page.old + 51 ≤ 2048 }
    requires net { unsigned_abs net ≤ 200000000000000000 }
    ensures text { page.new.bytes ≡ page.old.bytes ++ flat_map ended (order_lines member (order_of net)) }
    ensures bound { array_string_len page.new ≤ array_string_len page.old + 51 }
{
    let Some(order) = order_of(net) else {
        return;
    };
    add_line(page, "member=", member.index() as u64);
    page.push_str(order.side.line());
    page.push_str("\n");
    add_line(page, "centavos=", order.centavos);
}

// The text of a sheet of that session and those nets.
#[tactic(auto, using(crate::proofs::Lines::session_long))]
pub(crate) fn compose(session: u64, nets: &[i64]) -> Page
    requires session { session ≤ 100000 }
    requires few { length nets.now ≤ 32 }
    requires nets { payable nets.now ≡ true }
    ensures { result.bytes ≡ text session nets.now }
{
    let mut page = Page::new();
    add_line(&mut page, "session=", session);
    for (number, net) in nets.iter().enumerate() {
        if let Some(member) = Member::new(number) {
            add_net(&mut page, member, *net);
        }
    }
    add_line(&mut page, "end=", count_orders(nets) as u64);
    page
}
