ghost use Rattle.std.specs.Prelude.{◌≡◌, length};

/// A value that tells its history: a list of items, each with the number of the pass that made it, and
/// a base that no step changes. An item and a base are codes, as every type of Rust and of the
/// definitions has one.
pub trait Traced {
    ghost use Rattle.std.specs.Prelude.{ℕ, List};
    ghost use base.Stored.{Gv};

    /// The items, in the order in which they were made.
    ghost history: { Self → List (ℕ × Gv) };

    /// What never changes.
    ghost base: { Self → Gv };

    /// The number of items.
    fn item_count(&self) -> u64
        ensures { result ≡ length (history self.now) };
}
