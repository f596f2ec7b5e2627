// Blanks a matrix that is of no more use. Assumes memory that suffices, as it requires.
ghost use Rattle.std.specs.Prelude.{◌≡◌, ◌*◌, ◌≤◌, length};
ghost use Rattle.distances.specs.Memory.{blanked};

use spans::Span;

// Leaves the first n×n entries blank.
pub(crate) fn blank<S: Span>(matrix: &mut [Option<S>], n: usize)
    requires { n * n ≤ length matrix.old }
    ensures { matrix.new ≡ blanked n matrix.old }
{
    matrix[..n * n].fill(None);
}
