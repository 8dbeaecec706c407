// The slot gate's words with its list, as a call first looks at them.
ghost use Rattle.model.specs.Sound.{sound};

use crate::beginning::Checked;
use lists::{Lending, Plugins};
use model::{Gate, Record};
use soundness::is_sound;

impl<L: Plugins<Record = Record>> Checked for Lending<'_, Gate, L> {
    ghost plugins = { λ lent. lent.gate.now.n };

    ghost has_length = { λ lent. L.has_length lent.list lent.gate.now.n };

    ghost is_sound = { λ lent. sound lent.gate.now (L.items lent.list) };

    fn plugins(&self) -> u16 {
        self.gate.n
    }

    fn has_length(&self) -> bool {
        self.list.has_length(self.gate.n)
    }

    fn is_sound(&self) -> bool {
        is_sound(self)
    }
}
