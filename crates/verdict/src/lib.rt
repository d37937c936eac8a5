// The calls on a pair of files: values and best values, and the verdict.
#![tactic(auto)]

use loaded::Player;

pub mod values;
pub mod verdicts;

// The players' values over D0 × D1 × D2, their best values over D0 × the other's D, and D0, D1 and D2.
#[derive(Clone, Copy)]
pub struct PairValues {
    pub value1: i64,
    pub value2: i64,
    pub best1: i64,
    pub best2: i64,
    pub root_weight: u64,
    pub d1: u64,
    pub d2: u64,
}

// A player who can gain, his gain over D0 × D1 × D2, and how many sets his strategy covers.
#[derive(Clone, Copy)]
pub struct Shown {
    pub player: Player,
    pub gain: i64,
    pub sets: u64,
}

// The verdict on a pair, with D0 × D1 × D2: it is accepted where no deviation is shown.
#[derive(Clone, Copy)]
pub struct PairVerdict {
    pub base: u64,
    pub deviation: Option<Shown>,
}
