// gaterun: plays the schedule on standard input and prints its transcript (document 01, "What gaterun prints").
//
// What is printed is `driver::print_run`'s, which is proved for every input; its type forces the size of the buffer that it prints to. That all
// that was read is played, and all that was printed is written, is proved too, for every reader and writer whose bytes a contract can name.
// What is left to trust here is that reading standard input and writing standard output move the bytes.
#![tactic(auto)]

ghost use Rattle.std.specs.Prelude.{◌≤◌, OnOk, length};
ghost use Rattle.gaterun.specs.Run.{ReadsFront, WritesTranscript};

use arrayvec::ArrayVec;
use driver::{MOST_INPUT, print_run};
use std::io;
use std::io::{Read, Write};

// Reads until the buffer is full, the input ends or a read fails, and returns how many bytes it put at the start of the buffer, and whether
// a read failed: both, since what was read before a failure is played too.
fn read_full<R: Read>(input: &mut R, buffer: &mut [u8]) -> (usize, io::Result<()>)
    ensures bound { result.0 ≤ length buffer.new }
    ensures bytes { OnOk result.1 (ReadsFront (R.remaining input.old) result.0 buffer.new) }
{
    let mut done = 0;
    // How many reads fill the buffer is the reader's choice.
    while done < buffer.len() {
        match input.read(&mut buffer[done..]) {
            Ok(0) => break,
            Ok(n) => done += n,
            Err(e) => return (done, Err(e)),
        }
    }
    (done, Ok(()))
}

// Plays the schedule that the input holds, as far as it can be read, and writes its transcript. It is an error where a read or a write
// failed.
#[tactic(auto, using(crate::proofs::RunLaws::writes_transcript))]
fn play<R: Read, W: Write>(input: &mut R, output: &mut W) -> io::Result<()>
    ensures { OnOk result (WritesTranscript (R.remaining input.old) (W.contents output.old) (W.contents output.new)) }
{
    // One byte more than the longest schedule has is enough to know that the input is longer. An array and how much of it was read, since there is no heap.
    let mut buffer = [0u8; MOST_INPUT + 1];
    let (size, reading) = read_full(input, &mut buffer);
    let mut out = ArrayVec::new();
    print_run(&buffer[..size], &mut out);
    output.write_all(out.as_slice())?;
    reading
}

// The program has no exit status of its own: where a read fails the schedule ends, and what can't be written is lost.
fn main(rt: HostRuntime) {
    let _ = play(&mut rt.stdin(), &mut rt.stdout());
}
