// A number in base ten.
ghost use Rattle.transcript.specs.Lines.{decimal, number_room};

use crate::piece::Piece;
use arrayvec::ArrayVec;

// The digits of a number of sixteen bits.
pub const NUMBER_ROOM: usize = 5;

// Without leading zeros: before the last digit stands the quotient by ten. `write!` would answer a Result, though what has room can't fail, and so
// would `u8::try_from`, though a digit fits a byte.
impl<const N: usize> Piece<N> for u16 {
    const ROOM: usize = NUMBER_ROOM;

    ghost ROOM = { number_room };

    ghost text = { decimal };

    #[tactic(auto, using(crate::proofs::DecimalLaws::decimal_one, crate::proofs::DecimalLaws::front_room, crate::proofs::DecimalLaws::wrote_more))]
    fn write(self, out: &mut ArrayVec<u8, N>) {
        if self < 10 {
            out.push(b'0' + self as u8);
        } else {
            (self / 10).write(out);
            out.push(b'0' + (self % 10) as u8);
        }
    }
}
