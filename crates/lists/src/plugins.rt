// What a call reads of a list.
ghost use Rattle.std.specs.Prelude.{◌≡◌, ◌<◌, ℕ, Bool, List, get_or, length, true};

// A plugin list that is lent for reading.
pub trait Plugins: Copy {
    // What is kept of a plugin.
    type Record: Copy;

    // Its records, in the plugins' order.
    ghost items: { Self → List Self.Record };

    // Whether its length is n.
    ghost has_length: { Self → ℕ → Bool };

    fn has_length(self, n: u16) -> bool
        ensures { result ≡ has_length self n };

    // The record at a place of a list that has its length.
    fn record(self, at: usize) -> Self::Record
        requires { (n : ℕ) × (has_length self n ≡ true) × (at < n) }
        ensures { (none : Self.Record) → result ≡ get_or (items self) at none };

    ghost counted: { (list : Self) (n : ℕ) → has_length list n ≡ true → length (items list) ≡ n };
}
