// The observations that a line names, out of all there are.
ghost use Rattle.std.specs.Prelude.{◌<◌, ◌≤◌, length};

use crate::overnight::Observation;

#[derive(Clone, Copy)]
pub(crate) struct Window<'a> {
    pub(crate) observations: &'a [Observation],
    ghost some: { 0 < length observations.now },
    ghost few: { length observations.now ≤ 366 },
}
