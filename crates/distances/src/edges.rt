// The edges of a source's hulls in a matrix, with their links. Assumes that the memory has room, as each requires.
ghost use Rattle.std.specs.Prelude.{◌≡◌, ℕ, suc, ◌+◌, ◌*◌, ◌<◌, ◌≤◌, length, if◌then◌else◌, Some, None, nat_eq, nat_lt, true};
ghost use Rattle.networks.specs.Limits.{most_conditions};
ghost use Rattle.distances.specs.Begun.{begun, Filled};
ghost use Rattle.distances.specs.Edges.{Coded, condition_of, leaves, reaches, edge_weight, edge_code, edge_at, lesser, least_edge};
ghost use Rattle.distances.specs.Table.{is_direct};
ghost use Rattle.distances.specs.Matrix.{table, linked, Rest};

use crate::legal::LegalSource;
use crate::link::Link;
use crate::matrix::{improve, place};
use layers::Hull;
use networks::Source;
use spans::Span;

// An edge of a condition: forward, with its hull's high end, or back, with the opposite of its low end.
#[derive(Clone, Copy, Debug, PartialEq, Eq)]
pub enum Edge {
    Forward(usize),
    Back(usize),
}

// The edge of a code.
impl From<u16> for Edge {
    ghost from_gives = { λ code edge. edge_code edge ≡ code };

    fn from(code: u16) -> Edge {
        let k = usize::from(code / 2);
        if code % 2 == 0 {
            Edge::Forward(k)
        } else {
            Edge::Back(k)
        }
    }
}

impl Edge {
    // The number of its condition.
    pub fn condition(self) -> usize
        ensures { result ≡ condition_of self }
    {
        match self {
            Edge::Forward(k) | Edge::Back(k) => k,
        }
    }

    // The point that it leaves.
    pub fn leaves<T: Source>(self, source: &T) -> usize
        ensures { result ≡ leaves (T.Source.means source.now) self }
    {
        match self {
            Edge::Forward(k) => source.from(k),
            Edge::Back(k) => source.to(k),
        }
    }

    // The point that it reaches.
    pub fn reaches<T: Source>(self, source: &T) -> usize
        ensures { result ≡ reaches (T.Source.means source.now) self }
    {
        match self {
            Edge::Forward(k) => source.to(k),
            Edge::Back(k) => source.from(k),
        }
    }

    // Its weight on the hull; none where that end is missing.
    pub fn weight<T: Source>(self, source: &T) -> Option<T::Span>
        ensures { result ≡ edge_weight T.Span.Span.kind (T.Source.means source.now) self }
    {
        let hull = Hull::over(source);
        match self {
            Edge::Forward(k) => hull.high(k, 0),
            Edge::Back(k) => hull.low(k, 0)?.opposite(),
        }
    }

    // Kept as a method: `From` asks nothing of its argument, and a code fits its type only below the limit on conditions.
    fn code(self) -> u16
        requires { condition_of self < most_conditions }
        ensures { result ≡ edge_code self }
    {
        match self {
            Edge::Forward(k) => 2 * k as u16,
            Edge::Back(k) => 2 * k as u16 + 1,
        }
    }
}

// The edge, where it is the least so far. Its two points come with it, since both edges of a condition have them.
fn put_edge<T: Source>(
    source: &LegalSource<T>,
    edge: Edge,
    from: usize,
    to: usize,
    matrix: &mut [Option<T::Span>],
    links: &mut [Link],
)
    requires there { condition_of edge < length source.now.conditions }
    requires points { (from ≡ leaves source.now edge) × (to ≡ reaches source.now edge) }
    requires room { (source.now.points * source.now.points ≤ length matrix.old) × (source.now.points * source.now.points ≤ length links.old) }
    ensures filled { (edges : ℕ → ℕ → Coded T.Span) → Filled source.now.points edges matrix.old links.old
        → Filled source.now.points (λ i j. lesser T.Span.Span.kind (edges i j) (edge_at T.Span.Span.kind source.now edge i j)) matrix.new links.new }
    ensures rest { Rest source.now.points matrix.old matrix.new }
{
    let asked = source.get();
    let at = place(source.points(), from, to);
    improve(
        matrix,
        links,
        at,
        edge.weight(asked),
        Link::Direct(edge.code()),
    );
}

// Both edges of condition k, each where it is the least so far.
fn put_condition<T: Source>(
    source: &LegalSource<T>,
    k: usize,
    matrix: &mut [Option<T::Span>],
    links: &mut [Link],
)
    requires there { k < length source.now.conditions }
    requires room { (source.now.points * source.now.points ≤ length matrix.old) × (source.now.points * source.now.points ≤ length links.old) }
    requires filled { Filled source.now.points (least_edge T.Span.Span.kind source.now k) matrix.old links.old }
    ensures filled { Filled source.now.points (least_edge T.Span.Span.kind source.now (suc k)) matrix.new links.new }
    ensures rest { Rest source.now.points matrix.old matrix.new }
{
    let asked = source.get();
    let from = asked.from(k);
    let to = asked.to(k);
    put_edge(source, Edge::Forward(k), from, to, matrix, links);
    put_edge(source, Edge::Back(k), to, from, matrix, links);
}

// Zero from each point to itself.
fn put_zeros<S: Span>(matrix: &mut [Option<S>], n: usize)
    requires { n * n ≤ length matrix.old }
    ensures matrix { (i j : ℕ) → table n matrix.new i j ≡ (if nat_eq i j then (if nat_lt i n then Some S.Span.kind.zero else None) else table n matrix.old i j) }
    ensures rest { Rest n matrix.old matrix.new }
{
    for m in 0..n {
        let at = place(n, m, m);
        matrix[at] = Some(S::zero());
    }
}

// The least edges of all conditions, and zero from each point to itself; what stood in the memory does not matter.
pub(crate) fn fill_edges<T: Source>(
    source: &LegalSource<T>,
    matrix: &mut [Option<T::Span>],
    links: &mut [Link],
)
    requires room { (source.now.points * source.now.points ≤ length matrix.old) × (source.now.points * source.now.points ≤ length links.old) }
    ensures matrix { (i j : ℕ) → table source.now.points matrix.new i j ≡ begun T.Span.Span.kind source.now i j }
    ensures links { (i j c : ℕ) (a : T.Span) → least_edge T.Span.Span.kind source.now (length source.now.conditions) i j ≡ Some (a, c)
        → linked source.now.points links.new i j ≡ Link.Direct c }
    ensures straight { (i j : ℕ) → is_direct (linked source.now.points links.new i j) ≡ true }
    ensures rest { Rest source.now.points matrix.old matrix.new }
{
    let n = source.points();
    matrix[..n * n].fill(None);
    links[..n * n].fill(Link::Direct(0));
    for k in 0..source.conditions() {
        put_condition(source, k, matrix, links);
    }
    put_zeros(matrix, n);
}
