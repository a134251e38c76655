// A text put into a lent buffer piece by piece, as the AUT writers spell it.
#![tactic(auto)]

ghost use Rattle.std.specs.Prelude.{◌≡◌, List, ◌∷◌, [], ℕ, ◌<◌};
ghost use Rattle.names.specs.Names.{text_of};
ghost use Rattle.text.specs.Putting.{Short, Puts};
ghost use Rattle.text.specs.Fronts.{Fronts};
ghost use Rattle.text.specs.Spelling.{decimal_of, tens, label_text, message_label, opening, closing, line_text, head_text};

use tokens::{Label, Line};

// A lent buffer, and the place in it of the next byte.
// Kept: methods that put text, and no `Display`: of what a `Display` writes a proof learns something in a `String` alone, and the project has no
// heap. The contracts here say every byte.
#[derive(Drop)]
pub struct Text<'a> {
    pub buf: &'a mut [u8],
    pub at: usize,
}

impl Text<'_> {
    // The byte `b`. One past the buffer's end is counted all the same, so that a text put into any buffer gives its length.
    pub fn put(&mut self, b: u8)
        ensures { Puts self.old (b ∷ []) self.new }
    {
        if self.at < self.buf.len() {
            self.buf[self.at] = b;
        }
        self.at = self.at.saturating_add(1);
    }

    // The bytes `w`.
    pub fn put_bytes(&mut self, w: &[u8])
        ensures { Puts self.old w.now self.new }
    {
        for &b in w {
            self.put(b);
        }
    }

    // `n` in decimal, with at most `k` digits before its last.
    // Kept: it calls itself, as `decimal_of` does. The last digit is found first and put last, so a loop would need a buffer to turn them round.
    // Kept: a cast, which is proved to fit; `try_from` would ask for an answer that never comes.
    pub fn put_decimal(&mut self, k: usize, n: usize)
        requires { n < tens k }
        ensures { Puts self.old (decimal_of k n) self.new }
    {
        if n >= 10 {
            self.put_decimal(k - 1, n / 10);
        }
        self.put(b'0' + (n % 10) as u8);
    }

    // The name `n`: the zeros behind its bytes are not of it.
    fn put_name(&mut self, n: u64)
        ensures { Puts self.old (text_of n) self.new }
    {
        for b in n.to_be_bytes() {
            if b != 0 {
                self.put(b);
            }
        }
    }

    pub fn put_label(&mut self, l: Label)
        ensures { Puts self.old (label_text l) self.new }
    {
        match l {
            Label::Mark => self.put_bytes(b"ckp"),
            Label::Take(n) => {
                self.put(b'?');
                self.put_name(n);
            }
            Label::Send(n) => {
                self.put(b'!');
                self.put_name(n);
            }
            Label::Other => {}
        }
    }

    // Kept: a bound of digits in four contracts: it is of a number that is put, and no value keeps it, so a type would be made for one call each time.
    pub fn put_opening(&mut self, f: usize)
        requires { f < tens 4 }
        ensures { Puts self.old (opening f) self.new }
    {
        self.put(b'(');
        self.put_decimal(4, f);
        self.put_bytes(b",\"");
    }

    pub fn put_closing(&mut self, g: usize)
        requires { g < tens 4 }
        ensures { Puts self.old (closing g) self.new }
    {
        self.put_bytes(b"\",");
        self.put_decimal(4, g);
        self.put_bytes(b")\n");
    }

    pub fn put_line(&mut self, l: Line)
        requires from_bound { l.from < tens 4 }
        requires to_bound { l.to < tens 4 }
        ensures { Puts self.old (line_text l) self.new }
    {
        self.put_opening(l.from);
        self.put_label(l.label);
        self.put_closing(l.to);
    }

    // The first line, of T and S.
    pub fn put_head(&mut self, t: usize, s: usize)
        requires t_bound { t < tens 4 }
        requires s_bound { s < tens 4 }
        ensures { Puts self.old (head_text t s) self.new }
    {
        self.put_bytes(b"des (0,");
        self.put_decimal(4, t);
        self.put(b',');
        self.put_decimal(4, s);
        self.put_bytes(b")\n");
    }
}

// The label of the message `n` at a state of that sign.
// Kept: the sign is a number and no enum, as the value has it, and the clause promises `message_label sign n` of every number.
pub fn label_of(sign: u8, n: u64) -> Label
    ensures { result ≡ message_label sign n }
{
    match sign {
        1 => Label::Take(n),
        _ => Label::Send(n),
    }
}

// The text that `put` puts, at the front of `out`: its length, or none if `out` has no room for it. It is put twice, for its length first,
// into no bytes, so that nothing is written where there is no room.
pub fn put_front<F: Fn(&mut Text)>(out: &mut [u8], put: F) -> Option<usize>
    ghost w: { List ℕ }
    requires callable { F.IsAlwaysCallable put }
    requires spells { (o : _) (n : _) → F.post put o tt n → Puts o.now w n.now }
    requires short { Short 0 w }
    ensures { Fronts w out.old result out.new }
{
    let mut length = Text {
        buf: &mut [],
        at: 0,
    };
    put(&mut length);
    let n = length.at;
    if out.len() < n {
        return None;
    }
    let mut text = Text { buf: out, at: 0 };
    put(&mut text);
    Some(n)
}
