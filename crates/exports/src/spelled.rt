// How a span is spelled in numbers.
ghost use Rattle.std.specs.Prelude.{◌≡◌, ◌+◌, ◌<◌, ◌≤◌, length};
ghost use Rattle.exports.specs.Spelling.{Spelling, Spells, minute_spelling, rank_spelling};
ghost use Rattle.exports.specs.Spellings.{minutes_spell, ranks_spell};

use spans::{MinuteRank, Minutes, Pair, Span};

pub(crate) trait Spelled: Span {
    ghost spelling: { Spelling Self };

    // How many numbers a span takes: one or two.
    fn width() -> usize
        ensures { (result ≡ spelling.width) × ((0 < result) × (result ≤ 2)) };

    fn read(numbers: &[i64], at: usize) -> Self
        requires { at + spelling.width ≤ length numbers.now }
        ensures { result ≡ spelling.read numbers.now at };

    fn write(self, numbers: &mut [i64], at: usize)
        requires { at + spelling.width ≤ length numbers.old }
        ensures { numbers.new ≡ spelling.write numbers.old at self };

    ghost spells: { Spells spelling };
}

impl Spelled for Minutes {
    ghost spelling = { minute_spelling };

    ghost spells = { minutes_spell };

    fn width() -> usize {
        1
    }

    fn read(numbers: &[i64], at: usize) -> Minutes {
        Minutes::from(numbers[at])
    }

    fn write(self, numbers: &mut [i64], at: usize) {
        numbers[at] = self.count;
    }
}

impl Spelled for Pair<Minutes, Minutes> {
    ghost spelling = { rank_spelling };

    ghost spells = { ranks_spell };

    fn width() -> usize {
        2
    }

    fn read(numbers: &[i64], at: usize) -> MinuteRank {
        MinuteRank::from((numbers[at], numbers[at + 1]))
    }

    fn write(self, numbers: &mut [i64], at: usize) {
        numbers[at] = self.first.count;
        numbers[at + 1] = self.second.count;
    }
}
