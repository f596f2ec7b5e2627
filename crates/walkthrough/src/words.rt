// Windows, times and refusals in words.
use networks::{Fault, Window};
use spans::Minutes;
use std::fmt;

// A window in words, each end as `E` writes it, with a unit behind.
#[derive(Clone, Copy)]
pub struct Told<E> {
    window: Window<E>,
    unit: &'static str,
}

impl<E: fmt::Display + PartialEq> fmt::Display for Told<E> {
    fn fmt<W: fmt::Write>(&self, f: &mut fmt::Formatter<W>) -> fmt::Result {
        let unit = self.unit;
        match (&self.window.low, &self.window.high) {
            (Some(low), Some(high)) if low == high => write!(f, "exactly {low}{unit}"),
            (Some(low), Some(high)) => write!(f, "{low} to {high}{unit}"),
            (Some(low), None) => write!(f, "at least {low}{unit}"),
            (None, Some(high)) => write!(f, "at most {high}{unit}"),
            (None, None) => write!(f, "any time"),
        }
    }
}

// In minutes.
pub fn in_minutes(window: Window<Minutes>) -> Told<i64> {
    Told {
        window: Window {
            low: window.low.map(|low| low.count),
            high: window.high.map(|high| high.count),
        },
        unit: " minutes",
    }
}

// In hours and minutes.
pub fn in_hours(window: Window<Minutes>) -> Told<Clock> {
    Told {
        window: Window {
            low: window.low.map(Clock),
            high: window.high.map(Clock),
        },
        unit: "",
    }
}

// Minutes as hours and minutes, with a minus below zero.
#[derive(Clone, Copy, PartialEq, Eq)]
pub struct Clock(pub Minutes);

impl fmt::Display for Clock {
    fn fmt<W: fmt::Write>(&self, f: &mut fmt::Formatter<W>) -> fmt::Result {
        let count = self.0.count.unsigned_abs();
        let hours = count / 60;
        let minutes = count % 60;
        let sign = if self.0.count < 0 { "-" } else { "" };
        write!(f, "{sign}{hours}:{minutes:02}")
    }
}

// A refusal: its number, its detail, and what it says.
#[derive(Clone, Copy)]
pub struct Refused(pub Fault);

impl fmt::Display for Refused {
    fn fmt<W: fmt::Write>(&self, f: &mut fmt::Formatter<W>) -> fmt::Result {
        let number = self.0.number();
        let detail = self.0.detail();
        let words = match self.0 {
            Fault::Points => "there must be 1 to 48 points",
            Fault::Named(_) => "a condition joins two different points that are there",
            Fault::WindowCount(_) => "a condition has one to four windows",
            Fault::EndSize(_) => "an end has at most 16777216 minutes",
            Fault::WindowOrder(_) => "windows rise",
            Fault::Full => "there are at most 64 conditions",
            Fault::Choices => "at most 6 conditions have two or more windows",
            Fault::Memory => "the lent memory is too short",
            Fault::Absent => "what is named must be there",
            Fault::Cycle(_) => "the hulls admit no plan",
            Fault::NoPlan => "the conditions admit no plan",
            Fault::Text(_) => "this is not list text",
        };
        write!(f, "refused {number} {detail} ({words})")
    }
}
