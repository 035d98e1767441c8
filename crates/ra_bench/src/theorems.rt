//! The limits in figures, the clauses of a function with an empty body.
ghost use Rattle.std.specs.Prelude.{◌≡◌};
ghost use Rattle.ra_bench.specs.declared.limits.TheConstants.{MOST_BENCH_REPLICAS, MOST_ROUNDS};

/// Theorem: the limits are 16 replicas and 1,000 rounds.
pub fn limits()
    ensures replicas { MOST_BENCH_REPLICAS ≡ 16 }
    ensures rounds { MOST_ROUNDS ≡ 1000 }
{}
