// A list as a slice of records.
ghost use Rattle.std.specs.Prelude.{eqb, length};
ghost use Rattle.std.proofs.Common.{rules};

use crate::plugins::Plugins;
use model::Record;

impl Plugins for &[Record] {
    type Record = Record;

    ghost items = { λ list. list.now };

    ghost has_length = { λ list n. eqb (length list.now) n };

    ghost counted = { Prim.search rules };

    fn has_length(self, n: u16) -> bool {
        self.len() == usize::from(n)
    }

    fn record(self, at: usize) -> Record {
        self[at]
    }
}
