// Reading a description file: 01's "The description file", with its refusals 1 to 11.
#![tactic(auto)]

ghost use Rattle.std.specs.Prelude.{◌≡◌, ◌++◌, ◌+◌, ◌<◌, ◌≤◌, drop, take, MatchOption};
ghost use Rattle.behaviour.specs.Limits.{most_states, most_lines};
ghost use Rattle.aut.specs.Adding.{insert, has, bare, add, check, add_message, check_message, check_label};
ghost use Rattle.aut.specs.File.{value_of, marked_finished, finish, lines, file};

use behaviour::{
    BYTES, Behaviour, LINES, Message, Messages, PerState, Reason, Refusal, STATES, UNUSED,
};
use tokens::{Label, Line};

// `m` in its place among the first `n` of `a`. From place to place the later of two messages is carried on.
fn insert(a: &mut Messages, n: usize, m: Message)
    requires { n < most_lines }
    ensures { a.new ≡ insert m (take n a.old) ++ drop (n + 1) a.old }
{
    let mut held = m;
    for place in &mut a[..n] {
        let next = *place;
        if behaviour::comes_before(held, next) {
            *place = held;
            held = next;
        }
    }
    a[n] = held;
}

// A message `n` at the state `f` is among those of `a`.
fn is_known(a: &[Message], f: u8, n: u64) -> bool
    ensures { result ≡ has f n a.now }
{
    a.iter().any(|&x| behaviour::is_at(x, f, n))
}

// For a message `n` at the state `f`, whose messages would be against it with the sign `other`.
// Kept: casts, here and below, which are proved to fit; `try_from` would ask for an answer that never comes.
// Kept: a sign and a mark, here and below, as its byte: any bytes may come from C as a value (see `Behaviour`).
fn check_message(b: &Behaviour, f: usize, other: u8, n: u64) -> Result<(), Reason>
    requires { f < most_states }
    ensures { result ≡ check_message b.now f other n }
{
    if b.signs[f] == other {
        return Err(Reason::TakingAndSending);
    }
    if is_known(b.used_messages(), f as u8, n) {
        return Err(Reason::SameNameAgain);
    }
    Ok(())
}

// For a label on a line between states of the value.
fn check_label(b: &Behaviour, from: usize, to: usize, label: Label) -> Result<(), Reason>
    requires { from < most_states }
    ensures { result ≡ check_label b.now from to label }
{
    match label {
        Label::Mark if from == to && b.marks[from] == 0 => Ok(()),
        Label::Mark => Err(Reason::MisplacedMark),
        Label::Take(n) => check_message(b, from, 2, n),
        Label::Send(n) => check_message(b, from, 1, n),
        Label::Other => Err(Reason::OtherLabel),
    }
}

// Is a line of the shape refused?
#[tactic(auto, unfolding(crate::specs::Adding::check))]
fn check(b: &Behaviour, l: Line) -> Result<(), Reason>
    requires { b.now.states ≤ most_states }
    ensures { result ≡ check b.now l }
{
    let states = usize::from(b.states);
    if l.from < states && l.to < states {
        return check_label(b, l.from, l.to, l.label);
    }
    Err(Reason::StateTooHigh)
}

fn add_message(b: &mut Behaviour, g: u8, m: Message)
    requires { (m.from < most_states) × (b.old.count < most_lines) }
    ensures { b.new ≡ add_message b.old g m }
{
    insert(&mut b.messages, usize::from(b.count), m);
    b.signs[usize::from(m.from)] = g;
    b.count += 1;
}

// The behaviour with a line that meets no refusal.
#[tactic(auto, unfolding(crate::specs::Adding::add))]
fn add(b: &mut Behaviour, l: Line)
    requires { (l.from < most_states) × (l.to < most_states) × (b.old.count < most_lines) }
    ensures { b.new ≡ add b.old l }
{
    let from = l.from as u8;
    let to = l.to as u8;
    match l.label {
        Label::Mark => b.marks[l.from] = 1,
        Label::Take(name) => add_message(b, 1, Message { name, from, to }),
        Label::Send(name) => add_message(b, 2, Message { name, from, to }),
        Label::Other => {}
    }
}

// The lowest state that is marked and finished.
fn marked_finished(marks: &PerState, signs: &PerState) -> Option<usize>
    ensures { MatchOption result (marked_finished 0 marks.now signs.now ≡ most_states) (λ k. (k < most_states) × (marked_finished 0 marks.now signs.now ≡ k)) }
{
    marks
        .iter()
        .zip(signs)
        .position(|(&m, &g)| m == 1 && g == 0)
}

// A value with nothing in it but its number of states.
pub fn nothing(states: u8) -> Behaviour
    ensures { result ≡ bare states }
{
    Behaviour {
        states,
        count: 0,
        marks: [0; STATES],
        signs: [0; STATES],
        messages: [UNUSED; LINES],
    }
}

fn finished(b: Behaviour) -> Result<Behaviour, Refusal>
    ensures { result ≡ finish b }
{
    match marked_finished(&b.marks, &b.signs) {
        Some(k) => Err(Reason::FinishedMarked.at(k as u16)),
        None => Ok(b),
    }
}

// The lines after the first: `count` of them, and nothing after.
fn read_lines(rest: &[u8], count: u16, states: u8) -> Result<Behaviour, Refusal>
    requires { (count ≤ most_lines) × (states ≤ most_states) }
    ensures { result ≡ lines count 2 (bare states) rest.now }
{
    let mut b = nothing(states);
    let mut left = rest;
    for p in 2..count + 2 {
        let (line, after) = tokens::read_line(left).ok_or(Reason::LineShape.at(p))?;
        check(&b, line).map_err(|k| k.at(p))?;
        add(&mut b, line);
        left = after;
    }
    if !left.is_empty() {
        return Err(Reason::LineShape.at(count + 2));
    }
    finished(b)
}

// The behaviour that a description file gives, or its refusal.
#[tactic(auto, unfolding(crate::specs::File::file))]
pub fn read_file(s: &[u8]) -> Result<Behaviour, Refusal>
    ensures { result ≡ file s.now }
{
    if BYTES < s.len() {
        return Err(Reason::FileTooLong.into());
    }
    let (head, rest) = tokens::read_head(s).ok_or(Reason::FirstLineShape.at(1))?;
    if head.start != 0 {
        return Err(Reason::StartNotZero.at(1));
    }
    if head.states < 1 || STATES < head.states || LINES < head.lines {
        return Err(Reason::SizeOutsideRange.at(1));
    }
    read_lines(rest, head.lines as u16, head.states as u8)
}

// What reading gave as a behaviour: one of zero states for a refusal.
pub fn value_of(read: Result<Behaviour, Refusal>) -> Behaviour
    ensures { result ≡ value_of read }
{
    read.unwrap_or(nothing(0))
}
