// Closing: the matrix of a source's hulls, from its edges on and stage by stage, up to the end or to the first cycle below zero.
// For our own crates: the lent memory has to suffice, which the checks show.
ghost use Rattle.std.specs.Prelude.{◌≡◌, ◌*◌, ◌≤◌, length, MatchResult};
ghost use Rattle.distances.specs.Matrix.{linked, Rest};
ghost use Rattle.distances.specs.Closing.{Closes, CannotClose};

use crate::cycle::{ClosingEdge, find_closing};
use crate::edges::fill_edges;
use crate::legal::LegalSource;
use crate::link::Link;
use crate::relax::relax_stage;
use crate::route::Ways;
use networks::Source;
use spans::Span;

// Leaves the least totals in the matrix, or refuses with the edge that closes a way below zero; the links then give that way,
// and the matrix is of no use. What stood in the memory does not matter; past n×n the links are free.
// Kept as a clause, here and where it is called: the room is that of memory which the caller lends.
pub fn close<T: Source>(
    source: &LegalSource<T>,
    matrix: &mut [Option<T::Span>],
    links: &mut [Link],
) -> Result<(), ClosingEdge>
    requires room { (source.now.points * source.now.points ≤ length matrix.old) × (source.now.points * source.now.points ≤ length links.old) }
    ensures ends { MatchResult result (λ u. Closes T.Span.Span.kind source.now matrix.new)
        (λ e. CannotClose T.Span.Span.kind source.now (linked source.now.points links.new)
        e.first e.last e.code) }
    ensures rest { Rest source.now.points matrix.old matrix.new }
{
    let n = source.points();
    fill_edges(source, matrix, links);
    for k in 0..n {
        if let Some(edge) = find_closing(matrix, &Ways { n, links }, k) {
            return Err(edge);
        }
        relax_stage(matrix, links, n, k);
    }
    Ok(())
}
