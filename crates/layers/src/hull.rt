// The hull layer: each condition of the source below as its hull alone.
ghost use Rattle.std.specs.Prelude.{◌≡◌, refl};
ghost use Rattle.networks.specs.Hull.{hulls};
ghost use Rattle.layers.specs.Alike.{hull_points};

use crate::layer::{Layer, Rule};
use networks::Source;

#[derive(Clone, Copy)]
pub struct EachHull;

pub type Hull<T> = Layer<T, EachHull>;

impl<T: Source> Layer<T, EachHull> {
    // A source made of the hulls of another.
    pub fn over(under: T) -> Hull<T>
        ensures { ⟦<Hull<T> as Source>⟧.means result ≡ hulls (T.Source.means under) }
    {
        Layer {
            under,
            rule: EachHull,
        }
    }
}

#[tactic(auto, using(crate::proofs::Hulls::hull_second, crate::proofs::Hulls::hull_high_lem))]
impl<T: Source> Rule<T> for EachHull {
    ghost made = { λ r N. hulls N };

    ghost same_points = { λ r N. refl };

    ghost same_count = { λ r N. (hull_points N 0).same_count };

    ghost same_from = { λ r N k. (hull_points N k).same_from };

    ghost same_to = { λ r N k. (hull_points N k).same_to };

    // None without windows, else one.
    fn windows(&self, under: &T, k: usize) -> usize {
        under.windows(k).min(1)
    }

    // The low end of the first window.
    fn low(&self, under: &T, k: usize, w: usize) -> Option<T::Span> {
        if w == 0 { under.low(k, 0) } else { None }
    }

    // The high end of the last window.
    fn high(&self, under: &T, k: usize, w: usize) -> Option<T::Span> {
        if w > 0 {
            return None;
        }
        under.high(k, under.windows(k).checked_sub(1)?)
    }
}
