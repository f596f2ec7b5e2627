// Rows in the caller's memory as a source.
ghost use Rattle.std.specs.Prelude.{◌≡◌, length, MatchOption, slice_index_or};
ghost use Rattle.networks.specs.Network.{open_window, window_of};
ghost use Rattle.networks.specs.Rows.{row_condition, rows_network, MadeRow};
ghost use Rattle.networks.specs.Steps.{RowThere, RowAbsent};

use crate::source::Source;
use crate::window::Window;
use spans::Span;

// A condition: its points, the number of its windows and room for four of them; later ones lack both ends.
// Four fields and not an array: how large an array of a generic element is, is a goal at each use that no bound of `S` shows (tried).
#[derive(Clone, Copy, Debug, PartialEq, Eq)]
pub struct Row<S> {
    pub from: usize,
    pub to: usize,
    pub count: usize,
    pub first: Window<S>,
    pub second: Window<S>,
    pub third: Window<S>,
    pub fourth: Window<S>,
}

// Window w of these, both ends missing where there is none.
fn window_at<S: Span>(windows: &[Window<S>], w: usize) -> Window<S>
    ensures { result ≡ slice_index_or windows.now w open_window }
{
    windows.get(w).copied().unwrap_or(Window::any())
}

// The row of these windows, the first four of them in its room.
// Kept apart from `new`: that its condition has just these windows is proved by hand here, and `new` needs no proof of its own.
fn row_from<S: Span>(from: usize, to: usize, windows: &[Window<S>]) -> Row<S>
    ensures { MadeRow from to windows.now result }
{
    Row {
        from,
        to,
        count: windows.len(),
        first: window_at(windows, 0),
        second: window_at(windows, 1),
        third: window_at(windows, 2),
        fourth: window_at(windows, 3),
    }
}

impl<S: Span> Row<S> {
    // The row of a condition with these windows. Up to four are kept; with more, the row has their number and no ends past the fourth.
    pub fn new(from: usize, to: usize, windows: &[Window<S>]) -> Row<S>
        ensures { MadeRow from to windows.now result }
    {
        row_from(from, to, windows)
    }

    // Window w of the row, both ends missing where there is none.
    fn window(&self, w: usize) -> Window<S>
        ensures { result ≡ window_of (row_condition self.now) w }
    {
        if w >= self.count {
            return Window::any();
        }
        match w {
            0 => self.first,
            1 => self.second,
            2 => self.third,
            3 => self.fourth,
            _ => Window::any(),
        }
    }
}

#[derive(Drop)]
pub struct Rows<'a, S> {
    points: usize,
    rows: &'a [Row<S>],
}

impl<'a, S: Span> Rows<'a, S> {
    // The source of these rows.
    pub fn from_rows(points: usize, rows: &'a [Row<S>]) -> Rows<'a, S>
        ensures { ⟦<Rows<'a, S> as Source>⟧.means result ≡ rows_network points rows.now }
    {
        Rows { points, rows }
    }
}

impl<S: Span> Rows<'_, S> {
    // All rows, one for each condition.
    fn all(&self) -> &[Row<S>]
        ensures { length result.now ≡ length (rows_network self.now.points self.now.rows.now).conditions }
    {
        self.rows
    }

    // The row of condition k, where it is there.
    fn row(&self, k: usize) -> Option<&Row<S>>
        ensures { MatchOption result (RowAbsent self.now.points self.now.rows.now k)
            (λ row. RowThere self.now.points self.now.rows.now k row.now) }
    {
        self.rows.get(k)
    }
}

impl<S: Span> Source for Rows<'_, S> {
    type Span = S;

    ghost means = { λ s. rows_network s.points s.rows.now };

    fn points(&self) -> usize {
        self.points
    }

    fn conditions(&self) -> usize {
        self.all().len()
    }

    fn from(&self, k: usize) -> usize {
        self.row(k).map_or(0, |row| row.from)
    }

    fn to(&self, k: usize) -> usize {
        self.row(k).map_or(0, |row| row.to)
    }

    fn windows(&self, k: usize) -> usize {
        self.row(k).map_or(0, |row| row.count)
    }

    fn low(&self, k: usize, w: usize) -> Option<S> {
        self.row(k)?.window(w).low
    }

    fn high(&self, k: usize, w: usize) -> Option<S> {
        self.row(k)?.window(w).high
    }
}
