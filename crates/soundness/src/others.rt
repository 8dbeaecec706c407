// The other held tickets, those that are none of the places after VALID. A sound gate has at most k of them; each is kept as one
// number, its code. Most codes are told from all that are kept by their residue alone: a code is looked for only where one that is kept
// has the same remainder. How many codes there is room for, and how many residues there are, its user says: a gate with few other tickets clears
// little.
ghost use Rattle.std.specs.Prelude.{◌≡◌, ℕ, ◌<◌, ◌%◌, List, [], eqb, length};
ghost use Rattle.model.specs.Lists.{any};
ghost use Rattle.soundness.specs.Others.{Covers, Inserted, code_of};

use arrayvec::ArrayVec;
use model::{COLOURS, MOST_SLOTS, Ticket};
use std::marker::Model;

// Room for few codes, and for as many as there can be (a constant can't call `usize::from`: the cast loses nothing); and the residues for each.
pub const FEW_OTHERS: usize = 8;

pub const FEW_RESIDUES: usize = 32;

pub const MOST_OTHERS: usize = MOST_SLOTS as usize;

pub const MOST_RESIDUES: usize = 256;

// The codes of some tickets, in the order in which they were met.
#[derive(Drop)]
pub struct Others<const ROOM: usize, const RESIDUES: usize> {
    codes: ArrayVec<u32, ROOM>,
    // For each residue, whether a code that is kept has it.
    seen: [bool; RESIDUES],
}

impl<const ROOM: usize, const RESIDUES: usize> Model for Others<ROOM, RESIDUES> {
    ghost Value = { List ℕ };

    ghost view = { λ o. o.codes.items };

    ghost invariant = { λ o. Covers RESIDUES o.seen o.codes.items };
}

// A ticket as one number: no two tickets whose colours are 0 to 64 have one code.
fn code_of(t: Ticket) -> u32
    ensures { result ≡ code_of t.value.0 t.colour.0 }
{
    u32::from(t.value.0) * u32::from(COLOURS) + u32::from(t.colour.0)
}

// The residue of a code. Of 256 residues tickets of one value do not share one, and 256 that follow one another in one colour do not either.
fn residue_of<const RESIDUES: usize>(code: u32) -> usize
    requires { 0 < RESIDUES }
    ensures { (result ≡ code % RESIDUES) × (result < RESIDUES) }
{
    // A cast, since std has no `From<u32>` for a usize, of whose size Rust leaves open whether a u32 fits.
    code as usize % RESIDUES
}

impl<const ROOM: usize, const RESIDUES: usize> Others<ROOM, RESIDUES> {
    // None.
    pub fn new() -> Others<ROOM, RESIDUES>
        requires { 0 < RESIDUES }
        ensures { result ≡ [] }
    {
        Others {
            codes: ArrayVec::new(),
            seen: [false; RESIDUES],
        }
    }

    // How many there are.
    pub fn len(&self) -> usize
        ensures { result ≡ length self.now }
    {
        self.codes.len()
    }

    // Whether a ticket is one of them. It reads all codes, with no early return, so that a compiler can compare many at a time: by
    // the slice's `contains`, tried, a look at N 64 with k 64 took longer than its bar allows.
    pub fn contains(&self, t: Ticket) -> bool
        ensures { result ≡ any (λ y. eqb y (code_of t.value.0 t.colour.0)) self.now }
    {
        let code = code_of(t);
        let codes = self.codes.as_slice();
        if !self.seen[residue_of::<RESIDUES>(code)] {
            return false;
        }
        codes
            .iter()
            .fold(false, |found, kept| found | (*kept == code))
    }

    // One ticket more. It answers no, and leaves them as they are, if it is one of them already.
    pub fn insert(&mut self, t: Ticket) -> bool
        requires { length self.old < ROOM }
        ensures { Inserted (code_of t.value.0 t.colour.0) self.old result self.new }
    {
        if self.contains(t) {
            return false;
        }
        let code = code_of(t);
        self.codes.push(code);
        self.seen[residue_of::<RESIDUES>(code)] = true;
        true
    }
}
