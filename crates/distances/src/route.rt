// A way unfolded from its links into the codes of its edges. Assumes what each requires: room in the lent memory, and links that fall.
ghost use Rattle.std.specs.Prelude.{◌≡◌, ◌*◌, ◌<◌, ◌≤◌, length};
ghost use Rattle.distances.specs.Matrix.{linked};
ghost use Rattle.distances.specs.Unfolding.{Unfoldable, Unfolded};

use crate::link::Link;
use crate::matrix::entry;

// The two points that a way joins.
#[derive(Clone, Copy)]
pub(crate) struct Way {
    pub(crate) from: usize,
    pub(crate) to: usize,
}

impl Way {
    // The halves of a way over m.
    fn halves(self, m: usize) -> (Way, Way)
        ensures first { result.0 ≡ record { from = self.from; to = m } }
        ensures second { result.1 ≡ record { from = m; to = self.to } }
    {
        (Way { to: m, ..self }, Way { from: m, ..self })
    }
}

// What the links of n points say: that of (i, j) stands at place i×n + j.
#[derive(Clone, Copy)]
pub(crate) struct Ways<'a> {
    pub(crate) n: usize,
    pub(crate) links: &'a [Link],
    ghost room: { n * n ≤ length links.now },
}

impl Ways<'_> {
    // How the way from i to j goes on.
    pub(crate) fn link(&self, i: usize, j: usize) -> Link
        requires { (i < self.now.n) × (j < self.now.n) }
        ensures { result ≡ linked self.now.n self.now.links.now i j }
    {
        entry(self.links, self.n, i, j)
    }

    // Writes the codes of the way to the front of `out`, and answers how many edges it has. A way over a point is the way to that
    // point and then the way from it; both rank lower.
    // Kept: a number says how many codes were written, since the memory for them is lent.
    pub(crate) fn unfold(&self, way: Way, out: &mut [u16]) -> usize
        requires { Unfoldable self.now.n (linked self.now.n self.now.links.now) way.from way.to (length out.old) }
        ensures within { result ≤ length out.old }
        ensures unfolded { Unfolded (linked self.now.n self.now.links.now) way.from way.to out.old out.new result }
    {
        match self.link(way.from, way.to) {
            Link::Direct(code) => {
                out[0] = code;
                1
            }
            Link::Over(point) => {
                let (first, second) = way.halves(point as usize);
                let before = self.unfold(first, out);
                let behind = self.unfold(second, &mut out[before..]);
                before + behind
            }
        }
    }
}
