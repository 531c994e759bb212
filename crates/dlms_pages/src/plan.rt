//! Which calls of a device in memory fail.
ghost use Rattle.std.specs.Prelude.{◌≡◌, ◌+◌, ℕ};
ghost use Rattle.dlms_pages.specs.Memory.{fails_at};

/// Which of the calls to come fail.
#[derive(Clone, Copy, Debug, PartialEq, Eq)]
pub enum Plan {
    /// None fails.
    Never,
    /// So many pass, and every later one fails.
    From(u64),
    /// So many pass, the next fails, and every later one passes.
    Once(u64),
}

/// Whether the next call fails, and which of those after it do.
pub fn next_of(plan: Plan) -> (bool, Plan)
    ensures due { result.0 ≡ fails_at plan 0 }
    ensures later { (k : ℕ) → fails_at result.1 k ≡ fails_at plan (k + 1) }
{
    match plan {
        Plan::Never => (false, Plan::Never),
        Plan::From(0) => (true, Plan::From(0)),
        Plan::From(left) => (false, Plan::From(left - 1)),
        Plan::Once(0) => (true, Plan::Never),
        Plan::Once(left) => (false, Plan::Once(left - 1)),
    }
}
