// Lent places, and how many of them are filled, from the front on: a keeper asks for no memory, so the count stands beside the slice.
ghost use Rattle.std.specs.Prelude.{◌≤◌, length};

#[derive(Drop)]
pub struct Keeper<'a, T> {
    pub(crate) places: &'a mut [T],
    pub(crate) filled: usize,
    ghost sound: { filled ≤ length places.now },
}
