// The layer of a selection made in part: the selected window of each condition below a place, the hull of each from there on.
ghost use Rattle.std.specs.Prelude.{◌≡◌, refl};
ghost use Rattle.networks.specs.Selection.{chosen};
ghost use Rattle.layers.specs.Alike.{chosen_points};

use crate::hull::EachHull;
use crate::layer::{Layer, Rule};
use crate::selected::Selection;
use networks::{MOST_CONDITIONS, Source};

#[derive(Clone, Copy)]
pub struct PartSelection {
    selection: Selection,
    place: usize,
}

pub type Chosen<T> = Layer<T, PartSelection>;

impl<T: Source> Layer<T, PartSelection> {
    // A source made of another, with its windows selected below a place.
    pub fn over(under: T, windows: [u8; MOST_CONDITIONS], place: usize) -> Chosen<T>
        ensures { ⟦<Chosen<T> as Source>⟧.means result ≡ chosen (T.Source.means under) windows place }
    {
        let rule = PartSelection {
            selection: Selection { windows },
            place,
        };
        Layer { under, rule }
    }
}

#[tactic(auto, using(crate::specs::Alike::chosen_below, crate::specs::Alike::chosen_above))]
impl<T: Source> Rule<T> for PartSelection {
    ghost made = { λ r N. chosen N r.selection.windows r.place };

    ghost same_points = { λ r N. refl };

    ghost same_count = { λ r N. (chosen_points N r.selection.windows r.place 0).same_count };

    ghost same_from = { λ r N k. (chosen_points N r.selection.windows r.place k).same_from };

    ghost same_to = { λ r N k. (chosen_points N r.selection.windows r.place k).same_to };

    fn windows(&self, under: &T, k: usize) -> usize {
        if k < self.place {
            self.selection.windows(under, k)
        } else {
            EachHull.windows(under, k)
        }
    }

    fn low(&self, under: &T, k: usize, w: usize) -> Option<T::Span> {
        if k < self.place {
            self.selection.low(under, k, w)
        } else {
            EachHull.low(under, k, w)
        }
    }

    fn high(&self, under: &T, k: usize, w: usize) -> Option<T::Span> {
        if k < self.place {
            self.selection.high(under, k, w)
        } else {
            EachHull.high(under, k, w)
        }
    }
}
