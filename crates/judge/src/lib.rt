// Whether a case gave the expected answer, and how many did.
#![tactic(auto)]

ghost use Rattle.judge.specs.Judge.{Judged};

// The most cases that are counted.
pub const MOST: u32 = 1000000;

// Cases that gave the expected answer, and all cases.
#[derive(Clone, Copy, Debug, Default, PartialEq, Eq)]
pub struct Score {
    pub right: u32,
    pub all: u32,
}

// One case more. It is right exactly where the bytes of its answer are the expected ones. A score that is full stays.
pub fn judged(score: Score, answer: &[u8], expected: &[u8]) -> Score
    ensures { Judged answer.now expected.now score result }
{
    if MOST <= score.all || MOST <= score.right {
        return score;
    }
    Score {
        right: score.right + u32::from(answer == expected),
        all: score.all + 1,
    }
}
