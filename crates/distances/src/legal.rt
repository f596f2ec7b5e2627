// A source whose network is legal, as the checks show. Clauses see that network.
ghost use Rattle.std.specs.Prelude.{◌≡◌, length};
ghost use Rattle.networks.specs.Network.{Network};
ghost use Rattle.networks.specs.Legal.{Legal};

use networks::Source;
use spans::Span;
use std::marker::Model;

#[derive(Drop)]
pub struct LegalSource<'a, T: Source> {
    source: &'a T,
    // Asked once, when it is made: a source need not have it at hand.
    points: usize,
}

impl<'a, T: Source> Model for LegalSource<'a, T> {
    ghost Value = { Network T.Span };

    ghost view = { λ s. T.Source.means s.source.now };

    ghost invariant = { λ s. Legal T.Span.Span.kind (T.Source.means s.source.now) × (s.points ≡ (T.Source.means s.source.now).points) };
}

impl<'a, T: Source> LegalSource<'a, T> {
    pub fn new(source: &'a T) -> LegalSource<'a, T>
        requires { Legal T.Span.Span.kind (T.Source.means source.now) }
        ensures { result ≡ T.Source.means source.now }
    {
        LegalSource {
            source,
            points: source.points(),
        }
    }

    // The source itself, and that its network is legal.
    pub fn get(&self) -> &'a T
        ensures means { T.Source.means result.now ≡ self.now }
        ensures legal { Legal T.Span.Span.kind self.now }
    {
        self.source
    }

    pub fn points(&self) -> usize
        ensures points { result ≡ self.now.points }
        ensures legal { Legal T.Span.Span.kind self.now }
    {
        self.points
    }

    pub fn conditions(&self) -> usize
        ensures { result ≡ length self.now.conditions }
    {
        self.source.conditions()
    }
}
