// How many lines have each answer.
ghost use Rattle.std.specs.Prelude.{◌≤◌, length};
ghost use Rattle.report.specs.Counts.{numbers};
ghost use Rattle.block_read.specs.Block.{read_answer_of, read_answers_of};
ghost use Rattle.block_read.specs.Held.{Came};

use crate::number::{NumberRead, Place, read_number, read_words, wrong_at};

#[derive(Clone, Copy)]
pub(crate) struct AnswersRead {
    pub counts: [u64; 13],
    pub place: Place,
}

// How many lines have that answer: none where the line of another stands there, or of no answer.
fn read_answer(text: &[u8], from: Place, answer: u64) -> NumberRead
    requires { from.at ≤ length text.now }
    ensures { Came text.now from (read_answer_of answer) result.place result.value }
{
    let word = read_words(text, from, b"answer ");
    if !word.good {
        return NumberRead {
            value: 0,
            place: from,
        };
    }
    let found = read_number(text, word, u64::MAX, b' ');
    let at_count = found.place;
    if !at_count.good {
        return NumberRead {
            value: 0,
            place: at_count,
        };
    }
    if found.value != answer {
        return NumberRead {
            value: 0,
            place: from,
        };
    }
    let count = read_number(text, at_count, u64::MAX, b'\n');
    if count.value == 0 {
        return NumberRead {
            value: 0,
            place: wrong_at(at_count),
        };
    }
    count
}

// How many lines have each answer.
pub(crate) fn read_answers(text: &[u8], from: Place) -> AnswersRead
    requires { from.at ≤ length text.now }
    ensures { Came text.now from (read_answers_of numbers 0) result.place result.counts }
{
    let mut counts = [0u64; 13];
    let mut place = from;
    for i in 0..13 {
        let row = read_answer(text, place, i as u64);
        counts[i] = row.value;
        place = row.place;
    }
    AnswersRead { counts, place }
}
