// The selection layer: of each condition of the source below only the window that is selected for it.
ghost use Rattle.std.specs.Prelude.{◌≡◌, ◌<◌, length, None, refl};
ghost use Rattle.networks.specs.Network.{condition_at};
ghost use Rattle.networks.specs.Steps.{number_at};
ghost use Rattle.networks.specs.Selection.{selected};
ghost use Rattle.layers.specs.Alike.{selected_points};

use crate::layer::{Layer, Rule};
use networks::{MOST_CONDITIONS, Source};

// Condition k keeps window number `windows[k]`; none where there is no such window, or k is 64 or more.
// Kept as an array for the most conditions there can be: fixed memory, no heap.
#[derive(Clone, Copy)]
pub struct Selection {
    pub(crate) windows: [u8; MOST_CONDITIONS],
}

pub type Selected<T> = Layer<T, Selection>;

impl<T: Source> Layer<T, Selection> {
    // A source made of a selection of another's windows.
    pub fn over(under: T, windows: [u8; MOST_CONDITIONS]) -> Selected<T>
        ensures { ⟦<Selected<T> as Source>⟧.means result ≡ selected (T.Source.means under) windows }
    {
        let rule = Selection { windows };
        Layer { under, rule }
    }
}

impl Selection {
    // The number selected for condition k; none past the numbers.
    fn number(&self, k: usize) -> Option<usize>
        ensures { result ≡ number_at self.now.windows k }
    {
        self.windows.get(k).copied().map(usize::from)
    }

    // How many windows condition k keeps: one where the selected one is there, else none.
    fn kept_windows<T: Source>(&self, under: &T, k: usize) -> usize
        ensures { result ≡ length (condition_at (selected (T.Source.means under.now) self.now.windows) k).windows }
    {
        let kept = self.number(k).is_some_and(|n| n < under.windows(k));
        usize::from(kept)
    }

    // The number of the window below that is window w of condition k under the layer, where condition k has a number and w is 0.
    fn kept_window(&self, k: usize, w: usize) -> Option<usize>
        ensures first { w ≡ 0 → result ≡ number_at self.now.windows k }
        ensures later { 0 < w → result ≡ None }
    {
        if w > 0 {
            return None;
        }
        self.number(k)
    }
}

#[tactic(auto, using(crate::proofs::Selections::kept_none, crate::proofs::Selections::kept_some))]
impl<T: Source> Rule<T> for Selection {
    ghost made = { λ r N. selected N r.windows };

    ghost same_points = { λ r N. refl };

    ghost same_count = { λ r N. (selected_points N r.windows 0).same_count };

    ghost same_from = { λ r N k. (selected_points N r.windows k).same_from };

    ghost same_to = { λ r N k. (selected_points N r.windows k).same_to };

    fn windows(&self, under: &T, k: usize) -> usize {
        self.kept_windows(under, k)
    }

    fn low(&self, under: &T, k: usize, w: usize) -> Option<T::Span> {
        under.low(k, self.kept_window(k, w)?)
    }

    fn high(&self, under: &T, k: usize, w: usize) -> Option<T::Span> {
        under.high(k, self.kept_window(k, w)?)
    }
}
