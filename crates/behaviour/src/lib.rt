// The behaviour value: a description's states, marks and messages, sorted; and the refusal.
#![tactic(auto)]

ghost use Rattle.std.specs.Prelude.{◌≡◌, List, Some, ◌&&◌, ◌+◌, ◌≤◌, leb, eqb, length, get_or, take};
ghost use Rattle.behaviour.specs.declared.Message.{Message};
ghost use Rattle.behaviour.specs.Pick.{is};
ghost use Rattle.behaviour.specs.Refusals.{row_number, refusal};
ghost use Rattle.behaviour.specs.Printed.{refusal_text};
ghost use Rattle.behaviour.specs.Spoken.{settled_by};
ghost use Rattle.behaviour.specs.Limits.{most_states, most_lines};
ghost use Rattle.behaviour.specs.Sound.{before, between, blank, signed, markable, total, sound};

use std::fmt;

// S is at most this.
pub const STATES: usize = 10;

// T is at most this.
pub const LINES: usize = 96;

// A file has at most this many bytes.
pub const BYTES: usize = 4096;

// A line with ?name or !name. The name is one number, its first byte highest.
#[derive(Clone, Copy, PartialEq, Eq)]
pub struct Message {
    pub name: u64,
    pub from: u8,
    pub to: u8,
}

// "Unused places are zero"
pub const UNUSED: Message = Message {
    name: 0,
    from: 0,
    to: 0,
};

pub type PerState = [u8; STATES];

pub type Messages = [Message; LINES];

// marks: 1 at a marked state. signs: 1 at a state that takes, 2 at one that sends, 0 at a finished one. The first count messages are used;
// unused places are zero. The messages come first: behind smaller fields there would be a gap before them, and LLVM would copy them twice
// where a value is made.
// Kept: marks and signs are numbers and no enums, and the count stands beside the array, since a caller in C may hand over any bytes as a
// value (`packing::unpack`), which `is_sound` then judges; and there is no heap for a list.
#[derive(Clone, Copy)]
pub struct Behaviour {
    pub messages: Messages,
    pub states: u8,
    pub count: u8,
    pub marks: PerState,
    pub signs: PerState,
}

impl Behaviour {
    ghost use Rattle.behaviour.specs.Sound.{messages};

    // The messages of the value: all its places if the count is past the last.
    pub fn used_messages(&self) -> &[Message]
        ensures { result.now ≡ messages self.now }
    {
        &self.messages[..used(self.count)]
    }

    // Is the state x marked?
    pub fn is_marked(&self, x: u8) -> bool
        ensures { result ≡ eqb (get_or self.now.marks x 0) 1 }
    {
        entry(self.marks, x) == 1
    }

    // Does the state x take messages?
    pub fn takes(&self, x: u8) -> bool
        ensures { result ≡ eqb (get_or self.now.signs x 0) 1 }
    {
        entry(self.signs, x) == 1
    }

    // Does the state x send messages?
    pub fn sends(&self, x: u8) -> bool
        ensures { result ≡ eqb (get_or self.now.signs x 0) 2 }
    {
        entry(self.signs, x) == 2
    }
}

// Why something is refused: the rows of 01's table, each with its number.
#[derive(Clone, Copy, PartialEq, Eq, Debug)]
pub enum Reason {
    FileTooLong = 1,
    FirstLineShape = 2,
    StartNotZero = 3,
    SizeOutsideRange = 4,
    LineShape = 5,
    StateTooHigh = 6,
    OtherLabel = 7,
    MisplacedMark = 8,
    TakingAndSending = 9,
    SameNameAgain = 10,
    FinishedMarked = 11,
    LongerThanLent = 12,
    NoFileGivesIt = 13,
    NotCompliant = 14,
    NoStand = 15,
    MessageNotPossible = 16,
    RollbackNotPossible = 17,
}

impl Reason {
    // Kept: a method and no `From<Reason> for u8`, which would be no plainer: `number` says which byte it is, the row's.
    pub fn number(self) -> u8
        ensures { result ≡ row_number self }
    {
        self as u8
    }

    pub fn at(self, place: u16) -> Refusal
        ensures { result ≡ refusal self place }
    {
        Refusal {
            reason: self,
            place,
        }
    }
}

// A refusal's reason and place, from 01's table.
#[derive(Clone, Copy, PartialEq, Eq)]
pub struct Refusal {
    pub reason: Reason,
    pub place: u16,
}

// At place 0, as most rows have it.
impl From<Reason> for Refusal {
    ghost from_gives = { λ reason f. f ≡ refusal reason 0 };

    fn from(reason: Reason) -> Refusal {
        reason.at(0)
    }
}

// Its number and its place.
impl fmt::Display for Refusal {
    ghost output = { λ f. Some (refusal_text f) };

    fn fmt<W: fmt::Write>(&self, f: &mut fmt::Formatter<W>) -> fmt::Result {
        let number = self.reason.number();
        let place = self.place;
        write!(f, "{number} {place}")
    }
}

// How many places of a value are used: all of them if the count is past the last.
pub fn used(count: u8) -> usize
    ensures bounded { result ≤ 96 }
    ensures same { (a : List Message) → length a ≡ 96 → take result a ≡ take count a }
{
    usize::from(count).min(LINES)
}

// The entry of the state x; 0 past the last state.
// Kept: no Option, since the clause promises `get_or a x 0`.
pub fn entry(a: PerState, x: u8) -> u8
    ensures { result ≡ get_or a x 0 }
{
    a.get(usize::from(x)).copied().unwrap_or(0)
}

// By state, then by name.
// Kept: no derived order, which would read `to` as well, and `before` does not.
pub fn comes_before(a: Message, b: Message) -> bool
    ensures { result ≡ before a b }
{
    (a.from, a.name) < (b.from, b.name)
}

// Is it the message `n` from the state `x`?
pub fn is_at(m: Message, x: u8, n: u64) -> bool
    ensures { result ≡ is x n m }
{
    (m.from, m.name) == (x, n)
}

fn is_between(m: Message, states: u8) -> bool
    ensures { result ≡ between states m }
{
    m.from < states && m.to < states && names::is_name(m.name)
}

// A used message, by its own test and the message before it.
fn is_next(last: Message, m: Message, states: u8) -> bool
    ensures { result ≡ (between states m && before last m) }
{
    is_between(m, states) && comes_before(last, m)
}

fn is_blank(m: Message) -> bool
    ensures { result ≡ blank m }
{
    m == UNUSED
}

fn is_signed(speaking: bool, g: u8) -> bool
    ensures { result ≡ signed speaking g }
{
    matches!((speaking, g), (true, 1 | 2) | (false, 0))
}

fn is_markable(m: u8, g: u8) -> bool
    ensures { result ≡ markable m g }
{
    m == 0 || m == 1 && g != 0
}

// A state, by its mark, its sign and whether it speaks.
fn is_state(m: u8, g: u8, speaking: bool) -> bool
    ensures { result ≡ (signed speaking g && markable m g) }
{
    is_signed(speaking, g) && is_markable(m, g)
}

fn is_settled(marks: PerState, signs: PerState, speaking: [bool; STATES]) -> bool
    ensures { result ≡ settled_by marks signs speaking }
{
    marks
        .iter()
        .zip(&signs)
        .zip(&speaking)
        .all(|((m, g), t)| is_state(*m, *g, *t))
}

// How many states are marked.
pub fn marked_count(marks: PerState) -> usize
    ensures { result ≡ total marks }
{
    marks.iter().filter(|m| **m == 1).count()
}

// S and T are in range; T counts mark lines too.
fn is_in_range(states: u8, count: u8, marks: PerState) -> bool
    ensures { result ≡ (leb 1 states && (leb states most_states && leb (count + total marks) most_lines)) }
{
    1 <= states
        && usize::from(states) <= STATES
        && usize::from(count) + marked_count(marks) <= LINES
}

// Does some accepted file give the value?
pub fn is_sound(b: &Behaviour) -> bool
    ensures { result ≡ sound b.now }
{
    if !is_in_range(b.states, b.count, b.marks) {
        return false;
    }
    let (used, rest) = b.messages.split_at(usize::from(b.count));
    let mut speaking = [false; STATES];
    // No name is 0, so the first message comes after an unused place.
    let mut last = UNUSED;
    for m in used {
        if !is_next(last, *m, b.states) {
            return false;
        }
        speaking[usize::from(m.from)] = true;
        last = *m;
    }
    rest.iter().all(|m| is_blank(*m)) && is_settled(b.marks, b.signs, speaking)
}
