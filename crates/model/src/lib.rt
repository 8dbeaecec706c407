// The types of the slot gate, in the forms that document 01 names: the words and records, the calls and what they answer.
//
// Of code that runs this crate holds what calls do with these types: conversions, the ranges of N and k, replies handed on, and what the records of both
// gates have. Its `specs/` are document 01 as definitions, and its `proofs/` show that the
// gate so defined is a plain queue; the crates above prove that their code meets these definitions.
#![tactic(auto)]

ghost use Rattle.std.specs.Prelude.{◌≡◌, ◌&&◌, leb};
ghost use Rattle.model.specs.Refusals.{refusal_number};
ghost use Rattle.model.specs.Replies.{answer_of, words_after};
ghost use Rattle.model.specs.Sound.{ticket_of};

// The letters of the calls.
mod letters;
// What the records of both gates have.
mod standing;

pub use standing::Standing;

// "N is 1 to 1,024; k is 1 to 64": the most plugins and the most slots. There is a count for each of the colours 0 to 64.
pub const MOST_PLUGINS: u16 = 1024;

pub const MOST_SLOTS: u8 = 64;

pub const COLOURS: u8 = 65;

// Whether N and k are in range.
pub fn sizes_in_range(n: u64, k: u64) -> bool
    ensures { result ≡ (leb 1 n && leb n 1024 && leb 1 k && leb k 64) }
{
    (1..=u64::from(MOST_PLUGINS)).contains(&n) && (1..=u64::from(MOST_SLOTS)).contains(&k)
}

// The years of a gate, "1979 or 1989": the year picks the block. Years, regions and marks are numbers and no enums: words and records that C lends may
// hold any.
pub const YEAR_1979: u16 = 1979;

pub const YEAR_1989: u16 = 1989;

// A plugin's regions.
pub const IDLE: u8 = 0;

pub const WAITING: u8 = 1;

pub const INSIDE: u8 = 2;

// The mark of a stopped plugin. That of any other is 0.
pub const STOPPED: u8 = 1;

// A value counts places inside a block. Where a value, a colour or a slot is compared with a plain number, as k or the end of a block, it is by its
// number (`.0`).
#[repr(C)]
#[derive(Clone, Copy, Debug, Default, PartialEq, Eq, PartialOrd, Ord)]
pub struct Value(pub u16);

// A colour names the block. It is never taken where a value is meant.
#[repr(C)]
#[derive(Clone, Copy, Debug, Default, PartialEq, Eq, PartialOrd, Ord)]
pub struct Colour(pub u8);

// A ticket: a place of a block.
#[repr(C)]
#[derive(Clone, Copy, Debug, Default, PartialEq, Eq)]
pub struct Ticket {
    pub value: Value,
    pub colour: Colour,
}

// The number of a slot, 1 to k; 0 is no slot: in a record and in the free row, which C lends, there is always a number.
#[repr(C)]
#[derive(Clone, Copy, Debug, Default, PartialEq, Eq, PartialOrd, Ord)]
pub struct Slot(pub u8);

// The gate words: the year, N plugins, k slots, ISSUE (the ticket last handed out), VALID (the ticket last made valid), a count for each of
// the colours 0 to 64, and 64 places for the numbers of the free slots in order, 0 after the last. The arrays have one size for every k: C lends them. (In a
// type no `usize::from` can be called: the casts lose nothing.)
#[repr(C)]
#[derive(Clone, Copy, Default)]
pub struct Gate {
    pub year: u16,
    pub n: u16,
    pub k: u8,
    pub issue: Ticket,
    pub valid: Ticket,
    pub counts: [u8; COLOURS as usize],
    pub free: [u8; MOST_SLOTS as usize],
}

// One record of the host's plugin list. Region: 0 idle, 1 waiting (the paper's trying region T), 2 inside (its critical
// region C). Stop mark: 0 or 1. An idle plugin's value and colour are 0. The slot is 0 unless the plugin is inside.
#[repr(C)]
#[derive(Clone, Copy, Debug, Default, PartialEq, Eq)]
pub struct Record {
    pub region: u8,
    pub mark: u8,
    pub value: Value,
    pub colour: Colour,
    pub slot: Slot,
}

impl Record {
    // The ticket that it holds, if its plugin is not idle.
    pub fn ticket(self) -> Ticket
        ensures { result ≡ ticket_of self }
    {
        Ticket {
            value: self.value,
            colour: self.colour,
        }
    }
}

// The calls that name a plugin, with the letter of each.
#[derive(Clone, Copy, Debug, PartialEq, Eq)]
pub enum Call {
    Take = b'T' as isize,
    Look = b'L' as isize,
    Leave = b'B' as isize,
    Place = b'P' as isize,
    Stop = b'S' as isize,
    Wake = b'W' as isize,
}

// Why a call is refused, with the number of each refusal.
#[derive(Clone, Copy, Debug, PartialEq, Eq)]
pub enum Refusal {
    // N, k or the year out of range.
    OutOfRange = 1,
    // The list's length is not N.
    WrongLength = 2,
    // Words and list are not sound.
    NotSound = 3,
    // The plugin number is 0 or above N.
    NoSuchPlugin = 4,
    // The plugin is stopped.
    IsStopped = 5,
    // The plugin is not in the region that the call wants.
    WrongRegion = 6,
    // The plugin is not stopped.
    NotStopped = 7,
    // No line of a schedule, and no letter of a call.
    BadLine = 8,
    // The plugin waits, and its ticket is not valid.
    NotYetValid = 9,
    // An open for 1979 with k not below N.
    TooManySlots = 10,
    // The counter that the call would raise has its greatest value.
    CounterFull = 11,
}

// The number of a refusal.
impl From<Refusal> for u8 {
    ghost from_gives = { λ refusal n. n ≡ refusal_number refusal };

    fn from(refusal: Refusal) -> u8 {
        refusal as u8
    }
}

// The rule that decides whether a ticket is valid, and what it compared. Same colour as VALID's: the ticket's value, not above or
// above VALID's, and VALID's value. Another colour: the ticket's colour, counted or not, and its count.
#[derive(Clone, Copy, Debug, PartialEq, Eq)]
pub enum Rule {
    NotAbove(Value, Value),
    Above(Value, Value),
    Counted(Colour, u8),
    NotCounted(Colour, u8),
}

// What a look says, with the rule that applied: yes lets the plugin inside, and gives it the slot. It is no Option of a slot: both yes and no carry
// the rule, and document 01 calls them yes and no.
#[derive(Clone, Copy, Debug, PartialEq, Eq)]
pub enum Verdict {
    Yes(Slot, Rule),
    No(Rule),
}

// The answer to a call that is not refused: a take's ticket, a look's verdict, a place, or done. The slot gate and the numbered gate answer with tickets,
// verdicts and places of their own.
#[derive(Clone, Copy, Debug, PartialEq, Eq)]
pub enum Answer<T, V, P> {
    Took(T),
    Looked(V),
    Placed(P),
    Done,
}

// The slot gate's answers.
pub type SlotAnswer = Answer<Ticket, Verdict, u16>;

// What a call returns if it is not refused: the words that it leaves, and its answer.
#[derive(Clone, Copy)]
pub struct Reply<G, A> {
    pub gate: G,
    pub answer: A,
}

impl<G: Copy, A> Reply<G, A> {
    // The words are left where they were lent, and the answer remains.
    pub fn leave_in(self, words: &mut G) -> A
        ensures answer { result ≡ self.answer }
        ensures gate { words.new ≡ self.gate }
    {
        *words = self.gate;
        self.answer
    }
}

// The words to keep for the next call, and its answer, of what a call returned that was given the words g: a refusal leaves them.
pub fn words_and_answer<G: Copy, A>(
    g: G,
    returned: Result<Reply<G, A>, Refusal>,
) -> (G, Result<A, Refusal>)
    ensures { (result.0 ≡ words_after g returned) × (result.1 ≡ answer_of returned) }
{
    match returned {
        Ok(reply) => (reply.gate, Ok(reply.answer)),
        Err(refusal) => (g, Err(refusal)),
    }
}

// What an accepted call makes of its plugin's record, the only one that it can change, and its answer. The words it changes where they are lent, and the form
// of the list writes the record.
#[derive(Clone, Copy)]
pub struct Effect<R, A> {
    pub record: R,
    pub answer: A,
}

// The slot gate's replies and effects.
pub type SlotReply = Reply<Gate, SlotAnswer>;

pub type SlotEffect = Effect<Record, SlotAnswer>;

// A line of a schedule: an open with its N and k, or a call with its plugin number.
#[derive(Clone, Copy, Debug, PartialEq, Eq)]
pub enum Line {
    Open(u16, u16),
    Plugin(Call, u16),
}

// A part of a schedule that does not begin with a line of the grammar (8).
#[derive(Clone, Copy, Debug, PartialEq, Eq)]
pub struct NotALine;
