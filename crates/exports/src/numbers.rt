// Conditions spelled in numbers as a source.
ghost use Rattle.std.specs.Prelude.{◌≡◌, ◌+◌, ◌<◌, ◌≤◌, length, MatchOption};
ghost use Rattle.exports.specs.Meaning.{point_of, end_at, numbers_network, condition_numbers, IsCondition, Absent};

use crate::spelled::Spelled;
use networks::{MOST_POINTS, Source};
use spans::Span;
use std::marker::PhantomData;

// The number of a point; a number below zero names none.
fn point(number: i64) -> usize
    ensures { result ≡ point_of number }
{
    usize::try_from(number).unwrap_or(MOST_POINTS)
}

// The end whose mark stands at `at`.
fn end<S: Spelled>(numbers: &[i64], at: usize) -> Option<S>
    requires { at + 1 + S.Spelled.spelling.width ≤ length numbers.now }
    ensures { result ≡ end_at S.Spelled.spelling numbers.now at }
{
    (0 < numbers[at]).then(|| S::read(numbers, at + 1))
}

// The numbers of one condition: from, to, and two ends with their marks.
pub(crate) fn of_condition<S: Spelled>() -> usize
    ensures { (result ≡ condition_numbers S.Spelled.spelling) × ((0 < result) × (result ≤ 8)) }
{
    4 + 2 * S::width()
}

#[derive(Drop)]
pub(crate) struct Numbers<'a, S> {
    points: usize,
    numbers: &'a [i64],
    kind: PhantomData<S>,
}

impl<'a, S: Spelled> Numbers<'a, S> {
    pub(crate) fn new(points: usize, numbers: &'a [i64]) -> Self
        ensures points { result.points ≡ points }
        ensures numbers { result.numbers.now ≡ numbers.now }
    {
        Numbers {
            points,
            numbers,
            kind: PhantomData,
        }
    }

    // How many conditions there are; what is left over means none.
    fn count(&self) -> usize
        ensures { result ≡ length (numbers_network S.Spelled.spelling self.now.points self.now.numbers.now).conditions }
    {
        self.numbers.len() / of_condition::<S>()
    }

    // The numbers of condition k, if it is there; what is left over means none.
    fn condition(&self, k: usize) -> Option<&'a [i64]>
        ensures { MatchOption result (Absent S.Spelled.spelling self.now.points self.now.numbers.now k)
            (λ part. IsCondition S.Spelled.spelling self.now.points self.now.numbers.now k part.now) }
    {
        let size = of_condition::<S>();
        let at = k.checked_mul(size)?;
        self.numbers.get(at..at.checked_add(size)?)
    }
}

impl<S: Spelled> Source for Numbers<'_, S> {
    type Span = S;

    ghost means = { λ s. numbers_network S.Spelled.spelling s.points s.numbers.now };

    fn points(&self) -> usize {
        self.points
    }

    fn conditions(&self) -> usize {
        self.count()
    }

    fn from(&self, k: usize) -> usize {
        self.condition(k).map_or(0, |numbers| point(numbers[0]))
    }

    fn to(&self, k: usize) -> usize {
        self.condition(k).map_or(0, |numbers| point(numbers[1]))
    }

    fn windows(&self, k: usize) -> usize {
        self.condition(k).map_or(0, |_| 1)
    }

    fn low(&self, k: usize, w: usize) -> Option<S> {
        let numbers = self.condition(k)?;
        if w == 0 { end(numbers, 2) } else { None }
    }

    fn high(&self, k: usize, w: usize) -> Option<S> {
        let numbers = self.condition(k)?;
        if w == 0 {
            end(numbers, 3 + S::width())
        } else {
            None
        }
    }
}
