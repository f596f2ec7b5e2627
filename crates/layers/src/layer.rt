// A layer over a source: a rule makes something of its windows; its points, and what conditions join, stay.
ghost use Rattle.std.specs.Prelude.{◌≡◌, ℕ, length};
ghost use Rattle.networks.specs.Network.{Network, condition_at, window_of};

use networks::Source;

// What a layer makes of the windows of the source below, asked as a source is.
pub trait Rule<T: Source> {
    // What the layer means over a source that means this.
    ghost made: { Self → Network T.Span → Network T.Span };

    fn windows(&self, under: &T, k: usize) -> usize
        ensures { result ≡ length (condition_at (made self.now (T.Source.means under.now)) k).windows };

    fn low(&self, under: &T, k: usize, w: usize) -> Option<T::Span>
        ensures { result ≡ (window_of (condition_at (made self.now (T.Source.means under.now)) k) w).low };

    fn high(&self, under: &T, k: usize, w: usize) -> Option<T::Span>
        ensures { result ≡ (window_of (condition_at (made self.now (T.Source.means under.now)) k) w).high };

    // It leaves the points, and what each condition joins.
    ghost same_points: { (r : Self) (N : Network T.Span) → (made r N).points ≡ N.points };

    ghost same_count: { (r : Self) (N : Network T.Span) → length (made r N).conditions ≡ length N.conditions };

    ghost same_from: { (r : Self) (N : Network T.Span) (k : ℕ) → (condition_at (made r N) k).from ≡ (condition_at N k).from };

    ghost same_to: { (r : Self) (N : Network T.Span) (k : ℕ) → (condition_at (made r N) k).to ≡ (condition_at N k).to };
}

#[derive(Drop)]
pub struct Layer<T, R> {
    pub(crate) under: T,
    pub(crate) rule: R,
}

impl<T: Source, R: Rule<T>> Source for Layer<T, R> {
    type Span = T::Span;

    ghost means = { λ s. R.Rule.made s.rule (T.Source.means s.under) };

    fn points(&self) -> usize {
        self.under.points()
    }

    fn conditions(&self) -> usize {
        self.under.conditions()
    }

    fn from(&self, k: usize) -> usize {
        self.under.from(k)
    }

    fn to(&self, k: usize) -> usize {
        self.under.to(k)
    }

    fn windows(&self, k: usize) -> usize {
        self.rule.windows(&self.under, k)
    }

    fn low(&self, k: usize, w: usize) -> Option<T::Span> {
        self.rule.low(&self.under, k, w)
    }

    fn high(&self, k: usize, w: usize) -> Option<T::Span> {
        self.rule.high(&self.under, k, w)
    }
}
