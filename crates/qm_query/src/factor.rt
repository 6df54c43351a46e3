//! A boost, or a constant score.

ghost use Rattle.std.specs.Prelude.{◌≡◌, ◌≤ℤ◌, nat_abs, pos};

use qm_docset::Score;
use std::marker::Model;

/// A score that a query multiplies by, or gives, which is at least 0.
#[derive(Clone, Copy, Debug)]
pub(crate) struct Factor {
    score: Score,
}

impl Model for Factor {
    ghost use Rattle.std.specs.Prelude.{ℕ, ◌≤ℤ◌, nat_abs, pos};

    ghost Value = { ℕ };

    ghost view = { λ f. nat_abs f.score };

    ghost invariant = { λ f. pos 0 ≤ℤ f.score };

    ghost inverse = { λ n. record { score = pos n } };
}

impl Factor {
    pub(crate) fn new(score: Score) -> Factor
        requires { pos 0 ≤ℤ score }
        ensures { result ≡ nat_abs score }
    {
        Factor { score }
    }

    pub(crate) fn score(self) -> Score
        ensures { result ≡ pos self }
    {
        self.score
    }
}
