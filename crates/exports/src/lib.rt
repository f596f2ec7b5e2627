// Functions for programs in other languages, on numbers and slices of numbers. A slice is passed as a pointer and then a length;
// slices that are written share no memory with others.
//
// A condition is the numbers: from, to, mark, low end, mark, high end. An end is there where its mark is above zero; it is one number, the minute, or
// two, the minute and the rank, and they stand there whether it is or not. A point's number below zero names no point.
#![tactic(auto)]

ghost use Rattle.std.specs.Prelude.{length};
ghost use Rattle.spans.specs.MinuteKind.{minute_kind};
ghost use Rattle.spans.specs.PairKind.{pair_kind};
ghost use Rattle.networks.specs.Limits.{most_points};
ghost use Rattle.exports.specs.Spelling.{minute_spelling, rank_spelling};
ghost use Rattle.exports.specs.Meaning.{numbers_network, most_entries, AllOrNone, Answered};

use calls::{close_numbers, tighten_numbers};
use networks::{MOST_ENTRIES, MOST_POINTS};
use spans::{MinuteRank, Minutes};

mod calls;
mod entries;
mod numbers;
mod spelled;

// Kept as a function for each kind, here and below: the C interface needs names and types that C knows. Beside the memory, whose size goes by
// the kind, all is said once, for any kind.

// Tightens at minutes. Granted, the answer is 0, and for each p below points×points the entry p of the matrix is matrix[p] where present[p] is
// above zero, else missing. Refused, it is the number of the refusal, and detail[0] is its detail; where that number is 10, so many codes of a cycle
// below zero stand at the front of `cycle`. The answer 100 is none of the engine's: the numbers are not those of whole conditions, or there is no
// room for the detail; nothing is written then. The lent matrix has as many entries as `matrix` has numbers and `present` marks for.
#[unsafe(no_mangle)]
pub extern "C" fn tagredwood_tighten_minutes(
    points: usize,
    conditions: &[i64],
    matrix: &mut [i64],
    present: &mut [u8],
    cycle: &mut [u16],
    detail: &mut [usize],
) -> usize
    ensures { Answered minute_kind minute_spelling points conditions.now matrix.old present.old cycle.old detail.old
        result matrix.new present.new cycle.new detail.new }
{
    let mut memory: [Option<Minutes>; MOST_ENTRIES] = [None; MOST_ENTRIES];
    tighten_numbers::<Minutes>(
        points,
        conditions,
        &mut memory,
        matrix,
        present,
        cycle,
        detail,
    )
}

// Tightens at minute and rank: the same with two numbers for an end, and for the entry p the numbers matrix[2×p] and matrix[2×p + 1].
#[unsafe(no_mangle)]
pub extern "C" fn tagredwood_tighten_ranks(
    points: usize,
    conditions: &[i64],
    matrix: &mut [i64],
    present: &mut [u8],
    cycle: &mut [u16],
    detail: &mut [usize],
) -> usize
    ensures { Answered (pair_kind minute_kind minute_kind) rank_spelling points conditions.now matrix.old present.old cycle.old detail.old
        result matrix.new present.new cycle.new detail.new }
{
    let mut memory: [Option<MinuteRank>; MOST_ENTRIES] = [None; MOST_ENTRIES];
    tighten_numbers::<MinuteRank>(
        points,
        conditions,
        &mut memory,
        matrix,
        present,
        cycle,
        detail,
    )
}

// Tightens at minutes so many times, in memory of its own, and answers how many were granted: all or none. For measuring.
#[unsafe(no_mangle)]
pub extern "C" fn tagredwood_close_minutes(points: usize, conditions: &[i64], times: usize) -> usize
    ensures { AllOrNone minute_kind (numbers_network minute_spelling points conditions.now) most_entries most_points times result }
{
    let mut memory: [Option<Minutes>; MOST_ENTRIES] = [None; MOST_ENTRIES];
    let mut cycle = [0u16; MOST_POINTS];
    close_numbers::<Minutes>(points, conditions, &mut memory, &mut cycle, times)
}

// The same at minute and rank.
#[unsafe(no_mangle)]
pub extern "C" fn tagredwood_close_ranks(points: usize, conditions: &[i64], times: usize) -> usize
    ensures { AllOrNone (pair_kind minute_kind minute_kind) (numbers_network rank_spelling points conditions.now) most_entries most_points times result }
{
    let mut memory: [Option<MinuteRank>; MOST_ENTRIES] = [None; MOST_ENTRIES];
    let mut cycle = [0u16; MOST_POINTS];
    close_numbers::<MinuteRank>(points, conditions, &mut memory, &mut cycle, times)
}
