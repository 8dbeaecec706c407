// The slices that the results of calls are written to.
ghost use Rattle.std.specs.Prelude.{◌≡◌, length};
ghost use Rattle.results.specs.Results.{RoomAt, has_room, results, written};
ghost use Rattle.results.specs.Slices.{SameSlices, lists_of};

use answers::Shown;

// Whether there is a plugin number for each call, and room for its result. The slices are only read, so a caller may ask before it lends any for writing.
#[tactic(auto, unfolding(crate::specs::Results::has_room))]
pub fn has_room(
    calls: &[u8],
    plugins: &[u64],
    numbers: &[u8],
    verdicts: &[u8],
    places: &[u16],
    tickets: &[u16],
    shades: &[u8],
    given: &[u8],
    rules: &[u8],
    of_tickets: &[u16],
    against: &[u16],
) -> bool
    ensures { result ≡ has_room (length calls.now) plugins.now (results numbers.now verdicts.now places.now tickets.now shades.now given.now rules.now of_tickets.now against.now) }
{
    let m = calls.len();
    m <= plugins.len()
        && m <= numbers.len()
        && m <= verdicts.len()
        && m <= places.len()
        && m <= tickets.len()
        && m <= shades.len()
        && m <= given.len()
        && m <= rules.len()
        && m <= of_tickets.len()
        && m <= against.len()
}

// The nine slices, lent together: an element of each is the result of a call.
#[derive(Drop)]
pub struct ResultSlices<'a> {
    pub numbers: &'a mut [u8],
    pub verdicts: &'a mut [u8],
    pub places: &'a mut [u16],
    pub tickets: &'a mut [u16],
    pub shades: &'a mut [u8],
    pub given: &'a mut [u8],
    pub rules: &'a mut [u8],
    pub of_tickets: &'a mut [u16],
    pub against: &'a mut [u16],
}

impl ResultSlices<'_> {
    // Whether there is a plugin number for each call, and room for its result: `has_room` of these slices.
    pub fn has_room(&self, calls: &[u8], plugins: &[u64]) -> bool
        ensures { result ≡ has_room (length calls.now) plugins.now (lists_of self.now) }
    {
        has_room(
            calls,
            plugins,
            self.numbers,
            self.verdicts,
            self.places,
            self.tickets,
            self.shades,
            self.given,
            self.rules,
            self.of_tickets,
            self.against,
        )
    }

    // Writes what the answer of call i shows. That the slices stay the same (`SameSlices`) is promised with it: only so does a caller learn what its own
    // slices hold.
    pub fn write(&mut self, i: usize, shown: Shown)
        requires { RoomAt i (lists_of self.old) }
        ensures written { lists_of self.new ≡ written (lists_of self.old) i shown }
        ensures same_slices { SameSlices self.old self.new }
    {
        self.numbers[i] = shown.number;
        self.verdicts[i] = shown.yes;
        self.places[i] = shown.place;
        self.tickets[i] = shown.ticket.value.0;
        self.shades[i] = shown.ticket.colour.0;
        self.given[i] = shown.slot;
        self.rules[i] = shown.rule.number;
        self.of_tickets[i] = shown.rule.of_ticket;
        self.against[i] = shown.rule.against;
    }
}
