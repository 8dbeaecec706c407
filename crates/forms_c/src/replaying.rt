// A replay, exported.
ghost use Rattle.std.specs.Prelude.{◌≡◌};
ghost use Rattle.model.specs.Slices.{lent};
ghost use Rattle.results.specs.Results.{results};
ghost use Rattle.forms_c.specs.Numbers.{ReplayTold, ending_of};

use lists::ColumnsMut;
use model::Gate;
use replay::NotReplayed;
use results::ResultSlices;

// How a replay ended. C reads it as the number of a field.
enum End {
    Ran,
    NotOpened,
    TooShort,
    NoSuchCall,
}

// The words that the last call left, how the replay ended, and the number of a refused open.
#[repr(C)]
#[derive(Clone, Copy, Default)]
pub struct Ending {
    pub gate: Gate,
    pub ended: u8,
    pub number: u8,
}

// What a replay returned, handed over. Where it ran no call the words are those of no gate.
impl From<Result<Gate, NotReplayed>> for Ending {
    ghost from_gives = { λ replayed ending. ending ≡ ending_of replayed };

    #[tactic(auto, using(told::proofs::NoGate::default_words))]
    fn from(replayed: Result<Gate, NotReplayed>) -> Ending {
        match replayed {
            Ok(gate) => Ending {
                gate,
                ended: End::Ran as u8,
                ..Ending::default()
            },
            Err(NotReplayed::NotOpened(refusal)) => Ending {
                ended: End::NotOpened as u8,
                number: u8::from(refusal),
                ..Ending::default()
            },
            Err(NotReplayed::TooShort) => Ending {
                ended: End::TooShort as u8,
                ..Ending::default()
            },
            Err(NotReplayed::NoSuchCall) => Ending {
                ended: End::NoSuchCall as u8,
                ..Ending::default()
            },
        }
    }
}

// Opens a gate and runs the calls on it, as replay::replay has it. C passes each slice apart.
#[unsafe(no_mangle)]
pub extern "C" fn slot_gate_replay(
    year: u64,
    n: u64,
    k: u64,
    calls: &[u8],
    plugins: &[u64],
    regions: &mut [u8],
    marks: &mut [u8],
    values: &mut [u16],
    colours: &mut [u8],
    slots: &mut [u8],
    numbers: &mut [u8],
    verdicts: &mut [u8],
    places: &mut [u16],
    tickets: &mut [u16],
    shades: &mut [u8],
    given: &mut [u8],
    rules: &mut [u8],
    of_tickets: &mut [u16],
    against: &mut [u16],
) -> Ending
    ensures { let before = lent regions.old marks.old values.old colours.old slots.old in
        let after = lent regions.new marks.new values.new colours.new slots.new in
        let blank = results numbers.old verdicts.old places.old tickets.old shades.old given.old rules.old of_tickets.old against.old in
        let written = results numbers.new verdicts.new places.new tickets.new shades.new given.new rules.new of_tickets.new against.new in
        ReplayTold year n k calls.now plugins.now before blank result after written }
{
    let mut list = ColumnsMut {
        regions,
        marks,
        values,
        colours,
        slots,
    };
    let mut results = ResultSlices {
        numbers,
        verdicts,
        places,
        tickets,
        shades,
        given,
        rules,
        of_tickets,
        against,
    };
    Ending::from(replay::replay(year, n, k, calls, plugins, &mut list, &mut results))
}
