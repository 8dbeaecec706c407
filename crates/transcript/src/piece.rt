// A piece of a line, and how it is written to a buffer that the caller lends.
ghost use Rattle.std.specs.Prelude.{ℕ, ◌+◌, ◌≤◌, List};
ghost use Rattle.arrayvec.specs.ArrayVec.{array_vec_len};
ghost use Rattle.transcript.specs.Buffer.{Puts, Wrote};
ghost use Rattle.transcript.specs.Lines.{spaced};

use arrayvec::ArrayVec;

// A piece of text, as a number, a ticket or a whole line, for a buffer of `N` bytes. `N` is a parameter of the trait, since a method of a trait may
// have no const parameter of its own.
pub trait Piece<const N: usize>: Copy {
    // The most bytes that a piece of this kind may have.
    const ROOM: usize;

    ghost ROOM: { ℕ };

    ghost text: { Self → List ℕ };

    // Appends the text. It asks for room for the longest piece of its kind, so no push can fail.
    fn write(self, out: &mut ArrayVec<u8, N>)
        requires { array_vec_len out.old + ROOM ≤ N }
        ensures { Wrote ROOM (text self) out.old.items out.new.items };
}

// A field of a line: a space and a piece.
pub fn write_field<T: Piece<N>, const N: usize>(out: &mut ArrayVec<u8, N>, piece: T)
    requires { array_vec_len out.old + (1 + T.ROOM) ≤ N }
    ensures { Wrote (1 + T.ROOM) (spaced (T.text piece)) out.old.items out.new.items }
{
    out.push(b' ');
    piece.write(out);
}

// Appends a whole line, where the buffer has room for the longest of its kind. Where it has not, nothing.
pub fn put<T: Piece<N>, const N: usize>(out: &mut ArrayVec<u8, N>, line: T)
    ensures { Puts T.ROOM (T.text line) N out.old.items out.new.items }
{
    if out.remaining_capacity() >= T::ROOM {
        line.write(out);
    }
}
