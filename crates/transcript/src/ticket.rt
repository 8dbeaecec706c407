// A ticket as value/colour.
ghost use Rattle.transcript.specs.Lines.{ticket_room, ticket_text};

use crate::number::NUMBER_ROOM;
use crate::piece::Piece;
use arrayvec::ArrayVec;
use model::Ticket;

// Two numbers, and the stroke between them.
pub const TICKET_ROOM: usize = NUMBER_ROOM + 1 + NUMBER_ROOM;

// Value, stroke, colour.
impl<const N: usize> Piece<N> for Ticket {
    const ROOM: usize = TICKET_ROOM;

    ghost ROOM = { ticket_room };

    ghost text = { ticket_text };

    #[tactic(auto, using(std::proofs::Common::append_assoc), unfolding(crate::specs::Lines::ticket_text))]
    fn write(self, out: &mut ArrayVec<u8, N>) {
        self.value.0.write(out);
        out.push(b'/');
        u16::from(self.colour.0).write(out);
    }
}
