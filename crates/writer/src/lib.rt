// Writing a description file: the text of a value, put piece by piece.
#![tactic(auto)]

ghost use Rattle.std.specs.Prelude.{◌≡◌, ◌<◌, ◌≤◌, take};
ghost use Rattle.behaviour.specs.Limits.{most_states, most_lines};
ghost use Rattle.text.specs.Putting.{Puts};
ghost use Rattle.text.specs.Spelling.{tens, line_text};
ghost use Rattle.writer.specs.Text.{message_line, mark_line, message_lines, after_state, lines_from, lines_text, line_count, text};
ghost use Rattle.writer.specs.Written.{Writes};

use behaviour::{Behaviour, Message, PerState, Reason, Refusal, is_sound, marked_count};
use text::Text;
use tokens::{Label, Line};

// The mark's line of the state `k`.
// Kept: a mark as its byte: any bytes may come from C as a value (see `Behaviour`).
fn put_mark(out: &mut Text, k: usize, m: u8)
    requires { k < tens 4 }
    ensures { Puts out.old (lines_text (mark_line k m)) out.new }
{
    if m == 1 {
        out.put_line(Line {
            from: k,
            label: Label::Mark,
            to: k,
        });
    }
}

// The line of the message `m` at a state of the sign `g`.
fn put_message(out: &mut Text, m: Message, g: u8)
    ensures { Puts out.old (line_text (message_line g m)) out.new }
{
    out.put_line(Line {
        from: usize::from(m.from),
        label: text::label_of(g, m.name),
        to: usize::from(m.to),
    });
}

// The lines of the messages of the state `k` that stand first among `a`. What is left are those after them.
fn put_messages<'a>(out: &mut Text, a: &'a [Message], k: usize, g: u8) -> &'a [Message]
    ensures put { Puts out.old (lines_text (message_lines k g a.now)) out.new }
    ensures rest { result.now ≡ after_state k a.now }
{
    let mut rest = a;
    while let Some((m, after)) = rest.split_first() {
        if usize::from(m.from) != k {
            return rest;
        }
        put_message(out, *m, g);
        rest = after;
    }
    rest
}

// The lines by state: the mark first, then the messages.
fn put_lines(out: &mut Text, marks: &PerState, signs: &PerState, a: &[Message])
    ensures { Puts out.old (lines_text (lines_from 0 marks.now signs.now a.now)) out.new }
{
    let mut rest = a;
    for (k, (&mark, &sign)) in marks.iter().zip(signs).enumerate() {
        put_mark(out, k, mark);
        rest = put_messages(out, rest, k, sign);
    }
}

// The text of `b`, which has `lines` lines after the first.
fn put_text(out: &mut Text, lines: usize, b: &Behaviour)
    requires count { lines ≡ line_count b.now }
    requires few { lines ≤ most_lines }
    ensures { Puts out.old (text b.now) out.new }
{
    out.put_head(lines, usize::from(b.states));
    put_lines(out, &b.marks, &b.signs, b.used_messages());
}

// The text of `b` into `out`.
// Kept: a cast, which is proved to fit; `try_from` would ask for an answer that never comes.
pub fn write(b: Behaviour, out: &mut [u8]) -> Result<u16, Refusal>
    ensures { Writes b out.old result out.new }
{
    if !is_sound(&b) {
        return Err(Reason::NoFileGivesIt.into());
    }
    let lines = usize::from(b.count) + marked_count(b.marks);
    let n = text::put_front(out, |text| put_text(text, lines, &b)).ok_or(Reason::LongerThanLent)?;
    Ok(n as u16)
}
