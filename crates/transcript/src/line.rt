// The whole lines: a call's, an open's, and a single word.
ghost use Rattle.std.specs.Prelude.{◌+◌, length};
ghost use Rattle.transcript.specs.Buffer.{Puts};
ghost use Rattle.transcript.specs.Lines.{call_line_room, call_line_text, open_line_room, open_line_text, word_text};

use crate::number::NUMBER_ROOM;
use crate::piece::{Piece, write_field};
use crate::ticket::TICKET_ROOM;
use answers::number_of;
use arrayvec::ArrayVec;
use model::{Call, Refusal, SlotAnswer, Ticket};

// The line of a call: letter, plugin, number, answer, ISSUE and VALID after the call, and a line feed.
#[derive(Clone, Copy)]
pub struct CallLine {
    pub call: Call,
    pub plugin: u16,
    pub answer: Result<SlotAnswer, Refusal>,
    pub issue: Ticket,
    pub valid: Ticket,
}

impl<const N: usize> Piece<N> for CallLine {
    // A letter; two numbers and three of at most a ticket, each with its space; and the line feed.
    const ROOM: usize = 1 + 2 * (1 + NUMBER_ROOM) + 3 * (1 + TICKET_ROOM) + 1;

    ghost ROOM = { call_line_room };

    ghost text = { λ line. call_line_text line.call line.plugin line.answer line.issue line.valid };

    #[tactic(auto, using(std::proofs::Common::append_assoc), unfolding(crate::specs::Lines::call_line_text))]
    fn write(self, out: &mut ArrayVec<u8, N>) {
        out.push(u8::from(self.call));
        write_field(out, self.plugin);
        write_field(out, u16::from(number_of(self.answer)));
        write_field(out, self.answer);
        write_field(out, self.issue);
        write_field(out, self.valid);
        out.push(b'\n');
    }
}

// The line of an open: `O N k`, its number and a line feed.
#[derive(Clone, Copy)]
pub struct OpenLine {
    pub n: u16,
    pub k: u16,
    pub number: u8,
}

impl<const N: usize> Piece<N> for OpenLine {
    // A letter; three numbers, each with its space; and the line feed.
    const ROOM: usize = 1 + 3 * (1 + NUMBER_ROOM) + 1;

    ghost ROOM = { open_line_room };

    ghost text = { λ line. open_line_text line.n line.k line.number };

    #[tactic(auto, using(std::proofs::Common::append_assoc), unfolding(crate::specs::Lines::open_line_text))]
    fn write(self, out: &mut ArrayVec<u8, N>) {
        out.push(b'O');
        write_field(out, self.n);
        write_field(out, self.k);
        write_field(out, u16::from(self.number));
        out.push(b'\n');
    }
}

// A word and a line feed, as `bad` and `long`. Nothing where fewer bytes than these are left: a word's room is its own length, so it is no `Piece`.
#[tactic(auto, using(std::proofs::Common::append_assoc), unfolding(crate::specs::Lines::word_text))]
pub fn put_word<const N: usize>(out: &mut ArrayVec<u8, N>, word: &[u8])
    ensures { Puts (length word.now + 1) (word_text word.now) N out.old.items out.new.items }
{
    if out.remaining_capacity() > word.len() && out.try_extend_from_slice(word).is_ok() {
        out.push(b'\n');
    }
}
