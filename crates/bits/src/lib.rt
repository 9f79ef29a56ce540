// Bits of numbers: one bit, and the lowest ones; and a choice by a test.
#![tactic(auto)]

ghost use Rattle.std.specs.Prelude.{cond, ◌≡◌, ◌%◌, ◌^◌};
ghost use Rattle.bits.specs.Bits.{bit};

// Bit m of x.
pub fn bit(m: u64, x: u64) -> bool
    ensures { result ≡ bit m x }
{
    if 64 <= m {
        return false;
    }
    (x >> m) % 2 == 1
}

// The bits of x below bit n.
pub fn below(n: u64, x: u64) -> u64
    ensures { result ≡ x % 2 ^ n }
{
    if 64 <= n {
        return x;
    }
    x % (1 << n)
}

// The bits of x below bit n where the test holds, else all of x.
pub fn below_where(test: bool, n: u64, x: u64) -> u64
    ensures { result ≡ cond test (x % 2 ^ n) x }
{
    if test {
        return below(n, x);
    }
    x
}

// a where the test holds, else b.
pub fn pick<T: Drop>(test: bool, a: T, b: T) -> T
    ensures { result ≡ cond test a b }
{
    if test { a } else { b }
}
