// Exact arithmetic on weights: i64, so wide that no sum of a question's constants is lost.
ghost use Rattle.std.specs.Prelude.{◌≡◌, pos, neg_ℤ, ◌+ℤ◌, ◌-ℤ◌};
ghost use Rattle.std.specs.Int.{w64};
ghost use Rattle.std.proofs.Common.{SFits};

// An i32 as a weight.
pub fn wide(x: i32) -> i64
    ensures { result ≡ x }
{
    i64::from(x)
}

// The sum, wherever i64 can hold it.
pub fn sum(a: i64, b: i64) -> i64
    requires { SFits w64 (a +ℤ b) }
    ensures { result ≡ a +ℤ b }
{
    a + b
}

// The difference, wherever i64 can hold it.
pub fn difference(a: i64, b: i64) -> i64
    requires { SFits w64 (a -ℤ b) }
    ensures { result ≡ a -ℤ b }
{
    a - b
}

// The weight of a fact's negation: not (a − b ≤ k) is b − a ≤ −k − 1. It is exact at every i64.
pub fn negation(k: i64) -> i64
    ensures { result ≡ neg_ℤ k -ℤ pos 1 }
{
    -1 - k
}
