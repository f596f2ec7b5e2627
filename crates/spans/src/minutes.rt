// Minutes as a kind of spans.
ghost use Rattle.std.specs.Prelude.{◌≡◌};
ghost use Rattle.spans.specs.MinuteKind.{minute_kind};
ghost use Rattle.spans.specs.MinuteLaws.{minute_laws, minute_within, minute_ordered};

use crate::span::{Ordered, REACH, Span};

#[derive(Clone, Copy, Debug, PartialEq, Eq, PartialOrd, Ord, Hash)]
pub struct Minutes {
    pub count: i64,
}

impl From<i64> for Minutes {
    ghost from_gives = { λ count minutes. minutes.count ≡ count };

    fn from(count: i64) -> Minutes {
        Minutes { count }
    }
}

impl Span for Minutes {
    ghost kind = { minute_kind };

    ghost lawful = { minute_laws };

    ghost within = { minute_within };

    fn zero() -> Minutes
        ensures { result ≡ minute_kind.zero }
    {
        Minutes { count: 0 }
    }

    fn step() -> Minutes
        ensures { result ≡ minute_kind.step }
    {
        Minutes { count: 1 }
    }

    fn size(self) -> u64
        ensures { result ≡ minute_kind.size self }
    {
        self.count.unsigned_abs()
    }

    fn is_less(self, other: Minutes) -> bool
        ensures { result ≡ minute_kind.less self other }
    {
        self.count < other.count
    }

    fn sum(self, other: Minutes) -> Option<Minutes>
        ensures { result ≡ minute_kind.plus self other }
    {
        let a = self.count.unsigned_abs();
        let b = other.count.unsigned_abs();
        if a <= REACH && b <= REACH - a {
            Some(Minutes {
                count: self.count + other.count,
            })
        } else {
            None
        }
    }

    fn opposite(self) -> Option<Minutes>
        ensures { result ≡ minute_kind.opposite self }
    {
        if self.count.unsigned_abs() <= REACH {
            Some(Minutes { count: -self.count })
        } else {
            None
        }
    }
}

impl Ordered for Minutes {
    ghost ordered = { minute_ordered };
}
