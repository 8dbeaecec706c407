// The types of the numbered gate (document 02, A.9): the readable gate of document 001, Figure 3, which is run beside the coloured one for reviews.
//
// Of code that runs this crate holds only how a record's region and stop mark are read and the mark set. Its `specs/` are A.9 as definitions, and its
// `proofs/` show that the gate so defined is the plain queue, and so the 1989 gate; the crates above prove that their code meets these definitions.
#![tactic(auto)]

use model::{Answer, Effect, Reply, Standing};

// The words: N plugins, k slots, ISSUE (the ticket last handed out) and VALID (the ticket last made valid), both counters.
#[repr(C)]
#[derive(Clone, Copy, Debug, Default, PartialEq, Eq)]
pub struct NumberedGate {
    pub n: u16,
    pub k: u8,
    pub issue: u64,
    pub valid: u64,
}

// One record of the host's plugin list: region and stop mark as in `Record`, and the ticket, a counter value. An idle plugin's ticket is 0.
#[repr(C)]
#[derive(Clone, Copy, Debug, Default, PartialEq, Eq)]
pub struct NumberedRecord {
    pub region: u8,
    pub mark: u8,
    pub ticket: u64,
}

impl Standing for NumberedRecord {
    ghost region = { λ r. r.region };

    ghost mark = { λ r. r.mark };

    ghost marked = { λ r m. record { region = r.region; mark = m; ticket = r.ticket } };

    fn region(self) -> u8 {
        self.region
    }

    fn mark(self) -> u8 {
        self.mark
    }

    fn marked(self, m: u8) -> NumberedRecord {
        NumberedRecord { mark: m, ..self }
    }
}

// The numbered gate's answers: its tickets and places are counters, and its look says a plain yes or no.
pub type NumberedAnswer = Answer<u64, bool, u64>;

// The numbered gate's replies and effects.
pub type NumberedReply = Reply<NumberedGate, NumberedAnswer>;

pub type NumberedEffect = Effect<NumberedRecord, NumberedAnswer>;
