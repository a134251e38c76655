// The tokens and lines of a description file. A reader takes the bytes that are left, and gives what it read with the bytes that are
// then left, or nothing.
#![tactic(auto)]

ghost use Rattle.std.specs.Prelude.{◌≡◌, ◌<◌, MatchOption};
ghost use Rattle.tokens.specs.Parse.{got, off, nothing, Gives, Passes};
ghost use Rattle.tokens.specs.Tokens.{spaces, byte, word, digits, number, text, label, labelled};
ghost use Rattle.tokens.specs.Lines.{after, ending, line, head};

// What a label says: the state is marked, a message of that name is taken or sent, or it is no label.
// Kept: no label is a kind of its own here, and no `None` around three kinds. A line with a wrong label is a line all the same: what is wrong
// with it is judged after its states (6 before 7), together with the three, and as an `Option` each of those would stand in a `Some`.
#[derive(Clone, Copy)]
pub enum Label {
    Mark,
    Take(u64),
    Send(u64),
    Other,
}

#[derive(Clone, Copy)]
pub struct Line {
    pub from: usize,
    pub label: Label,
    pub to: usize,
}

#[derive(Clone, Copy)]
pub struct Head {
    pub start: usize,
    pub lines: usize,
    pub states: usize,
}

// What follows the spaces that come first.
fn skip(rest: &[u8]) -> &[u8]
    ensures { result.now ≡ spaces rest.now }
{
    match rest.iter().position(|&b| b != b' ') {
        Some(n) => &rest[n..],
        None => &[],
    }
}

// The bytes `w`.
fn literal<'a>(rest: &'a [u8], w: &[u8]) -> Option<&'a [u8]>
    ensures { Passes result (word w.now rest.now) }
{
    rest.strip_prefix(w)
}

// The byte `b`.
#[tactic(auto, unfolding(crate::specs::Tokens::byte))]
fn exact(rest: &[u8], b: u8) -> Option<&[u8]>
    ensures { Passes result (byte b rest.now) }
{
    let (&first, others) = rest.split_first()?;
    (first == b).then_some(others)
}

// The byte `b`, and spaces before it and after it.
fn spaced(rest: &[u8], b: u8) -> Option<&[u8]>
    ensures { Passes result (after b (got nothing) rest.now) }
{
    Some(skip(exact(skip(rest), b)?))
}

// Up to four digits more, after a first one.
fn read_digits(rest: &[u8], first: usize) -> (usize, &[u8])
    requires { first < 10 }
    ensures { digits 4 first rest.now ≡ got result.0 result.1.now }
{
    let mut v = first;
    let mut left = rest;
    for _ in 0..4usize {
        let Some((b, others)) = left.split_first() else {
            return (v, left);
        };
        if !b.is_ascii_digit() {
            return (v, left);
        }
        v = v * 10 + usize::from(*b - b'0');
        left = others;
    }
    (v, left)
}

// A number.
#[tactic(auto, unfolding(crate::specs::Tokens::number))]
fn read_number(rest: &[u8]) -> Option<(usize, &[u8])>
    ensures { Gives result (number rest.now) }
{
    let (&first, others) = rest.split_first()?;
    match first {
        b'0' => Some((0, others)),
        b'1'..=b'9' => Some(read_digits(others, usize::from(first - b'0'))),
        _ => None,
    }
}

// What the label `b` says.
fn read_label(b: &[u8]) -> Label
    ensures { result ≡ label b.now }
{
    if b == b"ckp".as_slice() {
        return Label::Mark;
    }
    let Some((&sign, name)) = b.split_first() else {
        return Label::Other;
    };
    let Some(name) = names::name_of(name) else {
        return Label::Other;
    };
    match sign {
        b'?' => Label::Take(name),
        b'!' => Label::Send(name),
        _ => Label::Other,
    }
}

// The bytes up to the first quote, none of them LF.
fn read_text(rest: &[u8]) -> Option<(&[u8], &[u8])>
    ensures { MatchOption result (text rest.now ≡ off) (λ r. text rest.now ≡ got r.0.now r.1.now) }
{
    let end = rest.iter().position(|&b| b == b'"' || b == b'\n')?;
    let (text, rest) = rest.split_at(end);
    Some((text, exact(rest, b'"')?))
}

// A quoted label.
#[tactic(auto, unfolding(crate::specs::Tokens::quoted))]
fn read_quoted(rest: &[u8]) -> Option<(Label, &[u8])>
    ensures { Gives result (labelled rest.now) }
{
    let rest = exact(rest, b'"')?;
    let (label, rest) = read_text(rest)?;
    if label.is_empty() {
        return None;
    }
    Some((read_label(label), rest))
}

// A bracket and LF.
fn line_end(rest: &[u8]) -> Option<&[u8]>
    ensures { Passes result (ending rest.now) }
{
    exact(spaced(rest, b')')?, b'\n')
}

// A line of the file after the first.
#[tactic(auto, using(crate::proofs::Lines::after_off, crate::proofs::Lines::after_got), unfolding(crate::specs::Lines::line))]
pub fn read_line(rest: &[u8]) -> Option<(Line, &[u8])>
    ensures { Gives result (line rest.now) }
{
    let rest = exact(rest, b'(')?;
    let (from, rest) = read_number(skip(rest))?;
    let (label, rest) = read_quoted(spaced(rest, b',')?)?;
    let (to, rest) = read_number(spaced(rest, b',')?)?;
    let rest = line_end(rest)?;
    Some((Line { from, label, to }, rest))
}

// The first line.
#[tactic(auto, using(crate::proofs::Lines::after_off, crate::proofs::Lines::after_got), unfolding(crate::specs::Lines::head))]
pub fn read_head(rest: &[u8]) -> Option<(Head, &[u8])>
    ensures { Gives result (head rest.now) }
{
    let rest = literal(rest, b"des")?;
    let (start, rest) = read_number(spaced(rest, b'(')?)?;
    let (lines, rest) = read_number(spaced(rest, b',')?)?;
    let (states, rest) = read_number(spaced(rest, b',')?)?;
    let rest = line_end(rest)?;
    Some((
        Head {
            start,
            lines,
            states,
        },
        rest,
    ))
}
