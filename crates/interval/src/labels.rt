// What is asked of the label of a stretch.
ghost use Rattle.std.specs.Prelude.{◌≡◌, ℕ, ◌+◌, Bool, Decides};

// A label that advances: a stretch with the label `x` has `advanced x i` at its address `start + i`.
pub trait Label: Copy {
    ghost advanced: { Self → ℕ → Self };

    fn advance(&self, by: u64) -> Self
        ensures { result ≡ advanced self.now by };

    ghost zero: { (x : Self) → advanced x 0 ≡ x };

    ghost sum: { (x : Self) (i j : ℕ) → advanced (advanced x i) j ≡ advanced x (i + j) };
}

// A label with a sameness, which says yes just if the labels are equal. No `Eq`, since its laws let
// labels that compare equal differ, and then no list of maximal stretches is the only one.
pub trait SameLabel: Label {
    ghost matches: { Self → Self → Bool };

    fn same(&self, other: &Self) -> bool
        ensures { result ≡ matches self.now other.now };

    ghost exact: { (x y : Self) → Decides (matches x y) (x ≡ y) };
}
