// What the records of both gates, the slot gate and the numbered gate, have: a region and a stop mark.
ghost use Rattle.std.specs.Prelude.{◌≡◌, ℕ};

use crate::Record;

pub trait Standing: Copy {
    ghost region: { Self → ℕ };

    ghost mark: { Self → ℕ };

    // The same record with a stop mark.
    ghost marked: { Self → ℕ → Self };

    fn region(self) -> u8
        ensures { result ≡ region self };

    fn mark(self) -> u8
        ensures { result ≡ mark self };

    fn marked(self, m: u8) -> Self
        ensures { result ≡ marked self m };
}

impl Standing for Record {
    ghost region = { λ r. r.region };

    ghost mark = { λ r. r.mark };

    ghost marked = { λ r m. record { region = r.region; mark = m; value = r.value; colour = r.colour; slot = r.slot } };

    fn region(self) -> u8 {
        self.region
    }

    fn mark(self) -> u8 {
        self.mark
    }

    fn marked(self, m: u8) -> Record {
        Record { mark: m, ..self }
    }
}
