// The checks of one condition's windows: no end too large, and the windows rise.
ghost use Rattle.std.specs.Prelude.{◌≡◌, ◌+◌, ◌<◌, ◌&&◌, length, drop};
ghost use Rattle.networks.specs.Network.{window_of};
ghost use Rattle.networks.specs.Refusal.{small, all_small, in_order, leaves_gap, before, rises};

use crate::condition::ConditionOf;
use networks::{LARGEST_END, Source};
use spans::Span;

fn is_small<S: Span>(end: Option<S>) -> bool
    ensures { result ≡ small S.Span.kind end }
{
    end.is_none_or(|a| a.size() <= LARGEST_END)
}

fn is_in_order<S: Span>(low: Option<S>, high: Option<S>) -> bool
    ensures { result ≡ in_order S.Span.kind low high }
{
    low.zip(high).is_none_or(|(a, b)| !b.is_less(a))
}

fn has_gap<S: Span>(high: Option<S>, low: Option<S>) -> bool
    ensures { result ≡ leaves_gap S.Span.kind high low }
{
    high.zip(low).is_some_and(|(b, a)| b.is_less(a))
}

impl<T: Source> ConditionOf<'_, T> {
    // Whether both ends of window w are small.
    fn window_small(&self, w: usize) -> bool
        ensures { result ≡ (small T.Span.Span.kind (window_of self.now w).low && small T.Span.Span.kind (window_of self.now w).high) }
    {
        is_small(self.low(w)) && is_small(self.high(w))
    }

    pub(crate) fn windows_small(&self) -> bool
        ensures { result ≡ all_small T.Span.Span.kind self.now.windows }
    {
        (0..self.windows()).all(|w| self.window_small(w))
    }

    // Whether window w's ends are in order and the window after it, if there is one, begins above it.
    fn window_rises(&self, w: usize, count: usize) -> bool
        requires { (w < count) × (count ≡ length self.now.windows) }
        ensures { result ≡ (in_order T.Span.Span.kind (window_of self.now w).low (window_of self.now w).high
            && before T.Span.Span.kind (window_of self.now w) (drop (w + 1) self.now.windows)) }
    {
        let high = self.high(w);
        is_in_order(self.low(w), high) && (w + 1 >= count || has_gap(high, self.low(w + 1)))
    }

    pub(crate) fn windows_rise(&self) -> bool
        ensures { result ≡ rises T.Span.Span.kind self.now.windows }
    {
        let count = self.windows();
        (0..count).all(|w| self.window_rises(w, count))
    }
}
