// What a kind of spans answers, and the laws that it shows.
ghost use Rattle.std.specs.Prelude.{◌≡◌};
ghost use Rattle.spans.specs.Kind.{Kind, Laws, OnlyWithin, OrderedBy};

// The two parts of a sum have at most this size together, and a span with an opposite has at most this size: 2^42.
pub const REACH: u64 = 1 << 42;

pub trait Span: Copy {
    ghost kind: { Kind Self };

    fn zero() -> Self
        ensures { result ≡ kind.zero };

    // A span above zero of size 1.
    fn step() -> Self
        ensures { result ≡ kind.step };

    fn size(self) -> u64
        ensures { result ≡ kind.size self };

    fn is_less(self, other: Self) -> bool
        ensures { result ≡ kind.less self other };

    // None where the sum is not there.
    fn sum(self, other: Self) -> Option<Self>
        ensures { result ≡ kind.plus self other };

    // None where the opposite is not there.
    fn opposite(self) -> Option<Self>
        ensures { result ≡ kind.opposite self };

    ghost lawful: { Laws Self kind };

    ghost within: { OnlyWithin Self kind };
}

// A kind whose order is that of `<`. A kind need not be one: what is here asks spans by `is_less`.
pub trait Ordered: Span + Ord {
    ghost ordered: { OrderedBy Self.Span.kind Self.cmp };
}
