// A source of conditions: what it means, and the questions that it answers. A question changes nothing.
ghost use Rattle.std.specs.Prelude.{◌≡◌, length};
ghost use Rattle.networks.specs.Network.{Network, condition_at, window_of};

use spans::Span;

pub trait Source {
    type Span: Span;

    ghost means: { Self → Network Self.Span };

    fn points(&self) -> usize
        ensures { result ≡ (means self.now).points };

    fn conditions(&self) -> usize
        ensures { result ≡ length (means self.now).conditions };

    // Kept as numbers, here and below, and not as Options: what is not there means a condition from point 0 to point 0 without windows.
    // The first point of condition k; 0 where there is no such condition.
    fn from(&self, k: usize) -> usize
        ensures { result ≡ (condition_at (means self.now) k).from };

    // The second point of condition k; 0 where there is no such condition.
    fn to(&self, k: usize) -> usize
        ensures { result ≡ (condition_at (means self.now) k).to };

    // How many windows condition k has; 0 where there is no such condition.
    fn windows(&self, k: usize) -> usize
        ensures { result ≡ length (condition_at (means self.now) k).windows };

    // The low end of window w of condition k; None where it is missing, and where there is no such window.
    fn low(&self, k: usize, w: usize) -> Option<Self::Span>
        ensures { result ≡ (window_of (condition_at (means self.now) k) w).low };

    // The high end likewise.
    fn high(&self, k: usize, w: usize) -> Option<Self::Span>
        ensures { result ≡ (window_of (condition_at (means self.now) k) w).high };
}

// A reference to a source is a source that means the same.
impl<T: Source> Source for &T {
    type Span = T::Span;

    ghost means = { λ s. T.Source.means s.now };

    fn points(&self) -> usize {
        (**self).points()
    }

    fn conditions(&self) -> usize {
        (**self).conditions()
    }

    fn from(&self, k: usize) -> usize {
        (**self).from(k)
    }

    fn to(&self, k: usize) -> usize {
        (**self).to(k)
    }

    fn windows(&self, k: usize) -> usize {
        (**self).windows(k)
    }

    fn low(&self, k: usize, w: usize) -> Option<T::Span> {
        (**self).low(k, w)
    }

    fn high(&self, k: usize, w: usize) -> Option<T::Span> {
        (**self).high(k, w)
    }
}

// The reference as a source.
pub fn by_reference<'a, T: Source>(source: &'a T) -> &'a T
    ensures { ⟦<&'a T as Source>⟧.means result ≡ T.Source.means source.now }
{
    source
}
