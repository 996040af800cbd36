// The keeper: of all the entries put to it, the first k in order, over a lent slice of k places.
#![tactic(auto)]

ghost use Rattle.std.specs.Prelude.{◌≡◌, ◌+◌, ◌≤◌, min, Bool, ◌∷◌, ◌++◌, length, take, drop, position};
ghost use Rattle.keeper.specs.Order.{TotalOrder, insert, first_of};
ghost use Rattle.keeper.specs.First.{FirstOf};
ghost use Rattle.keeper.specs.Keeping.{Put, held_by};
ghost use Rattle.keeper.specs.Laws.{KeeperLaws};

mod kept;

pub use kept::Keeper;

// An entry type with a total order: of two entries one comes first or they are equal in the order. It is not the library's `Ord`, which asks
// that only equal values tie: here a type may leave a figure out of its order.
pub trait Ordered: Copy {
    // Whether the first of two comes before the second.
    ghost before: { Self → Self → Bool };

    fn comes_before(&self, other: &Self) -> bool
        ensures { result ≡ before self.now other.now };

    ghost total: { TotalOrder before };
}

// The first of those that are held before which an entry comes, if there is one.
fn next_after<T: Ordered>(held: &[T], item: &T) -> Option<usize>
    ensures { result ≡ position (T.before item.now) held.now }
{
    held.iter().position(|other| item.comes_before(other))
}

// Where an entry goes among those that are held: after all that come before it or are equal, so that of two that are equal the one that was
// put first stays ahead.
fn spot<T: Ordered>(held: &[T], item: &T) -> usize
    ensures within { result ≤ length held.now }
    ensures splits { insert T.before item.now held.now ≡ take result held.now ++ item.now ∷ drop result held.now }
{
    next_after(held, item).unwrap_or(held.len())
}

// Puts an entry into the filled places, in order, and answers how many are filled then. Where there is no room the last falls out.
fn keep<T: Ordered>(places: &mut [T], filled: usize, item: T) -> usize
    requires { filled ≤ length places.old }
    ensures count { result ≡ min (filled + 1) (length places.old) }
    ensures held { take result places.new ≡ take (length places.old) (insert T.before item (take filled places.old)) }
    ensures rest { drop result places.new ≡ drop result places.old }
{
    let from = spot(&places[..filled], &item);
    let count = if filled < places.len() {
        filled + 1
    } else {
        filled
    };
    if from < count {
        let later = &mut places[from..count];
        later.rotate_right(1);
        later[0] = item;
    }
    count
}

impl<'a, T: Ordered> Keeper<'a, T> {
    // A keeper to which nothing was put.
    pub fn new(places: &'a mut [T]) -> Keeper<'a, T>
        ensures places { result.places ≡ places.entry }
        ensures filled { result.filled ≡ 0 }
    {
        Keeper { places, filled: 0 }
    }

    // Holds one entry more in its place, or lets the last go where there is no room.
    pub fn put(&mut self, item: T)
        ensures put { Put T.before self.old item self.new }
        ensures lent { self.new.places.ghost_name ≡ self.old.places.ghost_name }
    {
        let Keeper { places, filled } = self;
        *filled = keep(places, *filled, item);
    }

    // What is held, in order.
    pub fn held(&self) -> &[T]
        ensures { result.now ≡ held_by self.now }
    {
        &self.places[0..self.filled]
    }

    // How many places are filled.
    pub fn len(&self) -> usize
        ensures { result ≡ self.now.filled }
    {
        self.filled
    }
}

// Fills the places with the first of the items in order, and answers how many it filled; the others stay as they were.
pub fn first_of<T: Ordered>(items: &[T], places: &mut [T]) -> usize
    ensures count { result ≡ min (length places.old) (length items.now) }
    ensures held { take result places.new ≡ first_of T.before (length places.old) items.now }
    ensures rest { drop result places.new ≡ drop result places.old }
    ensures first { FirstOf T.before (length places.old) items.now (take result places.new) }
{
    let mut keeper = Keeper::new(places);
    for item in items {
        keeper.put(*item);
    }
    keeper.len()
}

// Whatever was put, in whatever order, a keeper holds the first of it.
pub fn keeper_laws<T: Ordered>()
    ensures { KeeperLaws T.before }
{}
