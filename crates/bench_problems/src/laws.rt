//! The law of the generated problems. The function does nothing: its contract is the law.
ghost use Rattle.std.specs.Prelude.{◌≡◌, ℕ, []};
ghost use Rattle.kat_model.specs.Guarded.{IsGuarded};
ghost use Rattle.bench_problems.specs.Generator.{bench_problem};

/// The sides of each generated problem are guarded, and it has no hypotheses.
pub fn bench_problems_are_guarded()
    ensures hyps { (k : ℕ) → (bench_problem k).hyps ≡ [] }
    ensures left { (k : ℕ) → IsGuarded (bench_problem k).left }
    ensures right { (k : ℕ) → IsGuarded (bench_problem k).right }
{}
