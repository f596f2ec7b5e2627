// Dates by the date rule: points get their dates in order of number, from the dates before them and the entries of a matrix.
ghost use Rattle.std.specs.Prelude.{◌≡◌, ℕ, ◌*◌, ◌<◌, ◌≤◌, if◌then◌else◌, length, take, drop};
ghost use Rattle.networks.specs.Limits.{most_points, largest_date};
ghost use Rattle.networks.specs.Hull.{hulls};
ghost use Rattle.networks.specs.Plan.{date, Plan};
ghost use Rattle.distances.specs.Limits.{largest_total};
ghost use Rattle.distances.specs.Distance.{entry_of};
ghost use Rattle.distances.specs.Closing.{Closes};
ghost use Rattle.distances.specs.Table.{Small};
ghost use Rattle.distances.specs.Matrix.{table};
ghost use Rattle.distances.specs.Steps.{earliest, latest, GreatestSoFar, LeastSoFar};
ghost use Rattle.distances.specs.DateRule.{Dated, ByDateRule};

use crate::legal::LegalSource;
use crate::matrix::entry;
use networks::Source;
use spans::Span;

// The later of two dates; the first where they are alike. By the kind's own order: a kind need not have `Ord`, so no `max` here.
fn later<S: Span>(a: S, b: S) -> S
    ensures { result ≡ (if S.Span.kind.less a b then b else a) }
{
    if a.is_less(b) { b } else { a }
}

// The earlier of two dates; the first where they are alike.
fn earlier<S: Span>(a: S, b: S) -> S
    ensures { result ≡ (if S.Span.kind.less b a then b else a) }
{
    if b.is_less(a) { b } else { a }
}

// The date of point p is due, and the points before it have theirs: entries and dates are small enough for every sum and difference to be there.
#[derive(Drop)]
struct Dating<'a, S: Span> {
    matrix: &'a [Option<S>],
    n: usize,
    dates: &'a [S],
    p: usize,
    ghost points: { (n ≤ most_points) × (p < n) },
    ghost room: { (n * n ≤ length matrix.now) × (n ≤ length dates.now) },
    ghost small: { Small S.Span.kind (table n matrix.now) largest_total },
    ghost near: { (q : ℕ) → q < p → S.Span.kind.size (date S.Span.kind dates.now q) ≤ largest_date },
}

impl<S: Span> Dating<'_, S> {
    // The date of q minus the entry from p to q, where that entry is there.
    fn earliest_from(&self, q: usize) -> Option<S>
        requires { q < self.now.p }
        ensures { result ≡ earliest S.Span.kind (date S.Span.kind self.now.dates.now q) (table self.now.n self.now.matrix.now self.now.p q) }
    {
        let e = entry(self.matrix, self.n, self.p, q)?;
        self.dates[q].sum(e.opposite()?)
    }

    // The date of q plus the entry from q to p, where that entry is there.
    // Kept beside earliest_from: one function of both would choose between two entries and between a sum and a difference, and so be both.
    fn latest_from(&self, q: usize) -> Option<S>
        requires { q < self.now.p }
        ensures { result ≡ latest S.Span.kind (date S.Span.kind self.now.dates.now q) (table self.now.n self.now.matrix.now q self.now.p) }
    {
        self.dates[q].sum(entry(self.matrix, self.n, q, self.p)?)
    }

    // The greatest of the dates that p is not to be earlier than, from the points before it.
    // Kept beside least_latest: one function of both would take the offer and the pick as closures, which is longer than this chain.
    fn greatest_earliest(&self) -> Option<S>
        ensures { GreatestSoFar S.Span.kind (table self.now.n self.now.matrix.now) self.now.dates.now self.now.p self.now.p result }
    {
        (0..self.p)
            .filter_map(|q| self.earliest_from(q))
            .reduce(|a, b| later(a, b))
    }

    // The least of the dates that p is not to be later than, from the points before it.
    fn least_latest(&self) -> Option<S>
        ensures { LeastSoFar S.Span.kind (table self.now.n self.now.matrix.now) self.now.dates.now self.now.p self.now.p result }
    {
        (0..self.p)
            .filter_map(|q| self.latest_from(q))
            .reduce(|a, b| earlier(a, b))
    }

    // The greatest earliest date, else the least latest one, else zero.
    fn date(&self) -> S
        ensures { Dated S.Span.kind (table self.now.n self.now.matrix.now) self.now.dates.now self.now.p result }
    {
        // Kept as a match: `or` would work out the least latest date each time, and of `or_else` with a closure that calls it the check knows nothing.
        match self.greatest_earliest() {
            Some(x) => x,
            None => self.least_latest().unwrap_or(S::zero()),
        }
    }
}

// Writes the dates of all points by the date rule on the matrix of the source's least totals. They are a plan of its hulls.
pub fn date_points<T: Source>(
    source: &LegalSource<T>,
    matrix: &[Option<T::Span>],
    dates: &mut [T::Span],
)
    requires room { (source.now.points * source.now.points ≤ length matrix.now) × (source.now.points ≤ length dates.old) }
    requires closed { Closes T.Span.Span.kind source.now matrix.now }
    ensures dated { ByDateRule T.Span.Span.kind (entry_of source.now.points matrix.now)
        (take source.now.points dates.new) source.now.points }
    ensures plan { Plan T.Span.Span.kind (hulls source.now) (take source.now.points dates.new) }
    ensures rest { drop source.now.points dates.new ≡ drop source.now.points dates.old }
{
    let n = source.points();
    for p in 0..n {
        let dating = Dating {
            matrix,
            n,
            dates,
            p,
        };
        dates[p] = dating.date();
    }
}
