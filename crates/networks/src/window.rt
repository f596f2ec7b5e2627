// A window of distances; an end that is missing demands nothing.
ghost use Rattle.std.specs.Prelude.{◌≡◌, Some, None};
ghost use Rattle.spans.specs.MinuteKind.{minutes};

use spans::Minutes;

#[derive(Clone, Copy, Debug, PartialEq, Eq, Hash)]
pub struct Window<S> {
    pub low: Option<S>,
    pub high: Option<S>,
}

impl<S> Window<S> {
    // Any distance.
    pub(crate) fn any() -> Window<S>
        ensures { result ≡ record { low = None; high = None } }
    {
        Window {
            low: None,
            high: None,
        }
    }
}

impl<S: Copy> Window<S> {
    pub fn at_least(least: S) -> Window<S>
        ensures { result ≡ record { low = Some least; high = None } }
    {
        Window {
            low: Some(least),
            ..Window::any()
        }
    }

    pub fn at_most(most: S) -> Window<S>
        ensures { result ≡ record { low = None; high = Some most } }
    {
        Window {
            high: Some(most),
            ..Window::any()
        }
    }

    pub fn between(low: S, high: S) -> Window<S>
        ensures { result ≡ record { low = Some low; high = Some high } }
    {
        Window {
            high: Some(high),
            ..Window::at_least(low)
        }
    }
}

impl Window<Minutes> {
    pub fn minutes(low: i64, high: i64) -> Window<Minutes>
        ensures { result ≡ record { low = Some (minutes low); high = Some (minutes high) } }
    {
        Window::between(Minutes::from(low), Minutes::from(high))
    }
}
