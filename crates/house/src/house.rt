// The house, and what always holds of it.
ghost use Rattle.std.specs.Prelude.{◌≡◌, length};

use book::book::Book;
use members::MEMBERS;
use sheet::order::Order;

// A clause sees the fields, and no model: the laws of every house will read them, as those of a book do.
// The book, and the order that is outstanding with each member, where there is one.
#[derive(Drop)]
pub struct House {
    pub(crate) book: Book,
    pub(crate) orders: [Option<Order>; MEMBERS],
    ghost wide: { length orders ≡ 32 },
}
