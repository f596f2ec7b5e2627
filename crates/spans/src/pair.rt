// A pair of two kinds as a kind: the first part decides the order, the second one only among equals.
ghost use Rattle.std.specs.Prelude.{◌≡◌};
ghost use Rattle.spans.specs.PairKind.{pair_kind};
ghost use Rattle.spans.specs.PairLaws.{pair_laws, pair_within, pair_ordered};

use crate::minutes::Minutes;
use crate::span::{Ordered, REACH, Span};

#[derive(Clone, Copy, Debug, PartialEq, Eq, PartialOrd, Ord, Hash)]
pub struct Pair<A, B> {
    pub first: A,
    pub second: B,
}

// The minute of an event and its rank among the events inside that minute.
pub type MinuteRank = Pair<Minutes, Minutes>;

// From a minute and a rank.
impl From<(i64, i64)> for Pair<Minutes, Minutes> {
    ghost from_gives = { λ counts pair. (pair.first.count ≡ counts.0) × (pair.second.count ≡ counts.1) };

    fn from((minute, rank): (i64, i64)) -> MinuteRank {
        Pair {
            first: Minutes::from(minute),
            second: Minutes::from(rank),
        }
    }
}

impl<A: Span, B: Span> Span for Pair<A, B> {
    ghost kind = { pair_kind A.Span.kind B.Span.kind };

    ghost lawful = { pair_laws A.Span.kind B.Span.kind A.Span.lawful B.Span.lawful };

    ghost within = { pair_within A.Span.kind B.Span.kind A.Span.within B.Span.within };

    fn zero() -> Pair<A, B>
        ensures { result ≡ (pair_kind A.Span.kind B.Span.kind).zero }
    {
        Pair {
            first: A::zero(),
            second: B::zero(),
        }
    }

    fn step() -> Pair<A, B>
        ensures { result ≡ (pair_kind A.Span.kind B.Span.kind).step }
    {
        Pair {
            first: A::zero(),
            second: B::step(),
        }
    }

    fn size(self) -> u64
        ensures { result ≡ (pair_kind A.Span.kind B.Span.kind).size self }
    {
        self.first.size().max(self.second.size())
    }

    fn is_less(self, other: Pair<A, B>) -> bool
        ensures { result ≡ (pair_kind A.Span.kind B.Span.kind).less self other }
    {
        if self.first.is_less(other.first) {
            return true;
        }
        if other.first.is_less(self.first) {
            return false;
        }
        self.second.is_less(other.second)
    }

    fn sum(self, other: Pair<A, B>) -> Option<Pair<A, B>>
        ensures { result ≡ (pair_kind A.Span.kind B.Span.kind).plus self other }
    {
        let a = self.size();
        let b = other.size();
        if a > REACH || b > REACH - a {
            return None;
        }
        let first = self.first.sum(other.first)?;
        let second = self.second.sum(other.second)?;
        Some(Pair { first, second })
    }

    fn opposite(self) -> Option<Pair<A, B>>
        ensures { result ≡ (pair_kind A.Span.kind B.Span.kind).opposite self }
    {
        let first = self.first.opposite()?;
        let second = self.second.opposite()?;
        Some(Pair { first, second })
    }
}

impl<A: Ordered, B: Ordered> Ordered for Pair<A, B> {
    ghost ordered = { pair_ordered A.Span.kind B.Span.kind A.Ord.cmp B.Ord.cmp A.Ord.total A.Ordered.ordered B.Ordered.ordered };
}
