// One condition of a source, which clauses see as what it means.
ghost use Rattle.std.specs.Prelude.{◌≡◌, length};
ghost use Rattle.networks.specs.Network.{Condition, condition_at, window_of};

use networks::Source;
use std::marker::Model;

#[derive(Drop)]
pub(crate) struct ConditionOf<'a, T: Source> {
    source: &'a T,
    k: usize,
}

impl<'a, T: Source> Model for ConditionOf<'a, T> {
    ghost Value = { Condition T.Span };

    ghost view = { λ s. condition_at (T.Source.means s.source.now) s.k };
}

impl<'a, T: Source> ConditionOf<'a, T> {
    pub(crate) fn new(source: &'a T, k: usize) -> ConditionOf<'a, T>
        ensures { result ≡ condition_at (T.Source.means source.now) k }
    {
        ConditionOf { source, k }
    }

    pub(crate) fn from(&self) -> usize
        ensures { result ≡ self.now.from }
    {
        self.source.from(self.k)
    }

    pub(crate) fn to(&self) -> usize
        ensures { result ≡ self.now.to }
    {
        self.source.to(self.k)
    }

    pub(crate) fn windows(&self) -> usize
        ensures { result ≡ length self.now.windows }
    {
        self.source.windows(self.k)
    }

    pub(crate) fn low(&self, w: usize) -> Option<T::Span>
        ensures { result ≡ (window_of self.now w).low }
    {
        self.source.low(self.k, w)
    }

    pub(crate) fn high(&self, w: usize) -> Option<T::Span>
        ensures { result ≡ (window_of self.now w).high }
    {
        self.source.high(self.k, w)
    }
}
