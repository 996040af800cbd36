// The book, and what always holds of it.
ghost use Rattle.std.specs.Prelude.{◌≡◌, ℕ, ◌<◌, ◌≤◌, true, length, vec_capacity, slice_index};
ghost use Rattle.swaps.specs.Swaps.{Each, Between, Limited, Due, rising};

use crate::table::Table;

// The house's members, the member of each account, the last closed session, the last number given, and the live swaps. The laws of every
// book read what always holds off these fields, so a book has ghost fields and no model of its own. The member of an account is a plain number,
// below the house's own count of members, which may be less than 32.
#[derive(Drop)]
pub struct Book {
    pub(crate) members: u32,
    pub(crate) accounts: Vec<usize>,
    pub(crate) closed: u32,
    pub(crate) given: u32,
    pub(crate) table: Table,
    ghost roll: { members ≤ 32 },
    ghost narrow: { length accounts.items ≤ 64 },
    ghost seated: { ((k : ℕ) → k < length accounts.items → slice_index accounts.items k < members) },
    ghost places: { 64 ≤ vec_capacity accounts },
    ghost early: { closed ≤ 100000 },
    ghost issued: { given ≤ 1000000 },
    ghost room: { 256 ≤ vec_capacity table.swaps },
    ghost few: { length table.swaps.items ≤ 256 },
    ghost between: { Each (Between (length accounts.items)) table.swaps.items },
    ghost limited: { Each Limited table.swaps.items },
    ghost due: { Each (Due closed) table.swaps.items },
    ghost ordered: { rising 0 given table.swaps.items ≡ true },
}
