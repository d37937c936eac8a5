// The verdict from values and best values: gains, who can gain, and the strategy that shows it.
#![tactic(auto)]

ghost use Rattle.std.specs.Prelude.{◌≡◌};
ghost use Rattle.judgement.specs.Judgement.{gain_of, judged, GainFits};

pub mod strategy;

use loaded::Player;

// A player who can gain, and his gain over D0 × D1 × D2.
#[derive(Clone, Copy)]
pub struct Deviation {
    pub player: Player,
    pub gain: i64,
}

// A player's best value less his value, over D0 × D1 × D2: `best` is over D0 × the other's D, `denominator` is his own D.
pub fn gain(denominator: u64, best: i64, value: i64) -> i64
    requires { GainFits denominator best value }
    ensures { result ≡ gain_of denominator best value }
{
    let scale = denominator as i64;
    scale * best - value
}

// Who can gain, and how much: player 1 where both can, none where nobody can.
pub fn judge(
    value1: i64,
    value2: i64,
    best1: i64,
    best2: i64,
    d1: u64,
    d2: u64,
) -> Option<Deviation>
    requires { GainFits d1 best1 value1 × GainFits d2 best2 value2 }
    ensures { result ≡ judged value1 value2 best1 best2 d1 d2 }
{
    let gain1 = gain(d1, best1, value1);
    if 0 < gain1 {
        return Some(Deviation {
            player: Player::One,
            gain: gain1,
        });
    }
    let gain2 = gain(d2, best2, value2);
    if 0 < gain2 {
        return Some(Deviation {
            player: Player::Two,
            gain: gain2,
        });
    }
    None
}
