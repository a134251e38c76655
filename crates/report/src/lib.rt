// The verdict program's whole output for two files.
#![tactic(auto)]

ghost use Rattle.std.specs.Prelude.{◌≡◌, List, ℕ, ◌≤◌, ◌<◌, ◌+◌, length, get_or, take};
ghost use Rattle.stands.specs.Stands.{alphabet};
ghost use Rattle.text.specs.Putting.{Short, Puts};
ghost use Rattle.report.specs.Output.{words_line, refused_text};
ghost use Rattle.report.specs.Followed.{seen_line, stepped, followed, stuck_text};
ghost use Rattle.report.specs.Reports.{Tells, Reports};
ghost use Rattle.report.specs.Judges.{CanJudge, Judges};

use behaviour::{Behaviour, Reason, Refusal};
use ranks::Names;
use search::ROLLBACK;
use text::Text;
use verdict::Judgement;

// A word, each number after a space, and LF. All that is told has numbers of at most 16 bits.
fn put_words(out: &mut Text, word: &[u8], numbers: &[u16])
    ensures { Puts out.old (words_line word.now numbers.now) out.new }
{
    out.put_bytes(word);
    for &n in numbers {
        out.put(b' ');
        out.put_decimal(4, usize::from(n));
    }
    out.put(b'\n');
}

// The client of a run, followed alone: the names are those of both files in byte order, and `home` is the state that it goes back to.
#[derive(Drop)]
struct Client<'a> {
    value: &'a Behaviour,
    names: &'a [u64],
    state: u8,
    home: u8,
}

impl Client<'_> {
    // The name of the rank `b`.
    // Kept: 0 and no Option for a name that is not there, since the lines of the run are `followed` (specs/Followed.antt), which has 0 there.
    fn name(&self, b: u8) -> u64
        ensures { result ≡ get_or self.now.names.now b 0 }
    {
        self.names.get(usize::from(b)).copied().unwrap_or(0)
    }

    // The line of its step `b`, which `k` steps are before.
    fn put_step(&self, out: &mut Text, k: usize, b: u8)
        requires { k < 99999 }
        ensures { Puts out.old (seen_line self.now.value.now self.now.names.now k self.now.state b) out.new }
    {
        out.put_opening(k);
        if b == ROLLBACK {
            out.put_bytes(b"rbk");
        } else {
            let sign = behaviour::entry(self.value.signs, self.state);
            out.put_label(text::label_of(sign, self.name(b)));
        }
        out.put_closing(k + 1);
    }

    fn step(&mut self, b: u8)
        ensures { self.new ≡ stepped self.old b }
    {
        if b == ROLLBACK {
            self.state = self.home;
            return;
        }
        let x = self.state;
        if behaviour::entry(self.value.marks, x) == 1 {
            self.home = x;
        }
        self.state = steps::target_of(*self.value, x, self.name(b));
    }
}

// The lines of the run.
// Kept: the client, the names, the cause and the run travel one by one through the functions below, since `followed` and `stuck_text`
// name each of them: with a struct around them the clauses would be longer, and none of the functions shorter. So the bound of the run's
// length, which is of the one slice that is told, stands in each.
fn put_steps(out: &mut Text, c: &Behaviour, names: &[u64], run: &[u8])
    requires { length run.now < 65535 }
    ensures { Puts out.old (followed c.now names.now 0 0 0 run.now) out.new }
{
    let mut client = Client {
        value: c,
        names,
        state: 0,
        home: 0,
    };
    for (k, &b) in run.iter().enumerate() {
        client.put_step(out, k, b);
        client.step(b);
    }
}

// The whole output for a pair that is stuck.
// Kept: casts, here and below, which are proved to fit; `try_from` would ask for an answer that never comes.
fn put_stuck(out: &mut Text, c: &Behaviour, names: &[u64], cause: u8, run: &[u8])
    requires { length run.now < 65535 }
    ensures { Puts out.old (stuck_text c.now names.now cause run.now) out.new }
{
    let n = run.len();
    put_words(out, b"stuck", &[u16::from(cause), n as u16]);
    out.put_head(n, n + 1);
    put_steps(out, c, names, run);
}

// A line of a word and numbers at the front of `out`; or 12, if it is longer.
fn say_words(word: &[u8], numbers: &[u16], out: &mut [u8]) -> Result<u32, Refusal>
    requires { (length word.now ≤ 100) × (length numbers.now ≤ 100) }
    ensures { Tells (words_line word.now numbers.now) out.old result out.new }
{
    let n = text::put_front(out, |text| put_words(text, word, numbers)).ok_or(
        Reason::LongerThanLent,
    )?;
    Ok(n as u32)
}

// A refused file's line.
fn say_refused(word: &[u8], f: Refusal, out: &mut [u8]) -> Result<u32, Refusal>
    requires { length word.now ≤ 100 }
    ensures { Tells (refused_text word.now f) out.old result out.new }
{
    say_words(word, &[u16::from(f.reason.number()), f.place], out)
}

fn say_run(
    c: &Behaviour,
    names: &[u64],
    cause: u8,
    run: &[u8],
    out: &mut [u8],
) -> Result<u32, Refusal>
    requires { length run.now < 65535 }
    ensures { Tells (stuck_text c.now names.now cause run.now) out.old result out.new }
{
    let n = text::put_front(out, |text| put_stuck(text, c, names, cause, run)).ok_or(
        Reason::LongerThanLent,
    )?;
    Ok(n as u32)
}

// The names are those of both files.
// Kept: client and server, lent, are two values, and no pair is a type of its own: `alphabet` names each.
fn say_stuck(
    c: &Behaviour,
    s: &Behaviour,
    cause: u8,
    run: &[u8],
    out: &mut [u8],
) -> Result<u32, Refusal>
    requires { (c.now.count ≤ 96) × (s.now.count ≤ 96) × (length run.now < 65535) }
    ensures { Tells (stuck_text c.now (alphabet c.now s.now) cause run.now) out.old result out.new }
{
    let mut names = Names::new();
    names.enter_all(s.used_messages());
    names.enter_all(c.used_messages());
    say_run(c, names.as_slice(), cause, run, out)
}

fn say_verdict(c: Behaviour, s: Behaviour, run: &mut [u8], out: &mut [u8]) -> Result<u32, Refusal>
    requires { CanJudge c s run.old }
    ensures { Judges c s out.old result out.new }
{
    // 13 is not given to what a file gave, and 12 not with room for every run.
    let judged = verdict::judge(c, s, run)?;
    match judged {
        Judgement::Compliant(n) => say_words(b"compliant", &[n], out),
        Judgement::Stuck(cause, n) => say_stuck(&c, &s, cause, &run[..usize::from(n)], out),
    }
}

fn report_in(client: &[u8], server: &[u8], run: &mut [u8], out: &mut [u8]) -> Result<u32, Refusal>
    requires { length run.old ≡ 12100 }
    ensures { Reports client.now server.now out.old result out.new }
{
    let c = match aut::read_file(client) {
        Ok(c) => c,
        Err(f) => return say_refused(b"client", f, out),
    };
    let s = match aut::read_file(server) {
        Ok(s) => s,
        Err(f) => return say_refused(b"server", f, out),
    };
    say_verdict(c, s, run, out)
}

// The whole output for a client file and a server file, at the front of `out`; or 12, if it is longer.
pub fn report(client: &[u8], server: &[u8], out: &mut [u8]) -> Result<u32, Refusal>
    ensures { Reports client.now server.now out.old result out.new }
{
    let mut run = [0u8; 12100];
    report_in(client, server, &mut run, out)
}
