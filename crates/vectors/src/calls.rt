// The session calls that data/calls lists: `pair CLIENT SERVER`, `open`, `message NAME`, `rollback`, and `at` with a stand to go on from.
// Each line is printed, a call's with its answer.
use crate::words;
use behaviour::Behaviour;
use session::Session;
use stands::{ClientState, ServerState, Stand};
use std::io;
use std::rt::Files;

// A line of the list, by its first letter; one that is none of the others is an `at`.
#[derive(Clone, Copy)]
enum Call<'a> {
    Pair(&'a [u8]),
    Open,
    Message(&'a [u8]),
    Rollback,
    At(Stand),
}

fn call_in(line: &[u8]) -> Option<Call<'_>> {
    Some(match line.first()? {
        b'p' => Call::Pair(words::after(line)),
        b'o' => Call::Open,
        b'm' => Call::Message(words::after(line)),
        b'r' => Call::Rollback,
        _ => Call::At(placed(line)),
    })
}

// One digit.
fn state(c: u8) -> u8 {
    c.saturating_sub(b'0')
}

// A return point: one digit, or a dash for none.
fn point(c: u8) -> Option<u8> {
    if c == b'-' { None } else { Some(state(c)) }
}

// `at C X S Y`, each one byte.
fn placed(line: &[u8]) -> Stand {
    let (x, g, y, h) = match line {
        [_, _, _, x, _, g, _, y, _, h, ..] => (*x, *g, *y, *h),
        _ => (b'0', b'-', b'0', b'-'),
    };
    Stand {
        client: ClientState(state(x)),
        clientpoint: point(g).map(ClientState),
        server: ServerState(state(y)),
        serverpoint: point(h).map(ServerState),
    }
}

fn side(rt: &impl Files, path: &[u8]) -> Behaviour {
    aut::value_of(crate::read_named(rt, path))
}

// A pair, and the session that the last granted call handed back.
#[derive(Clone, Copy)]
pub struct Play {
    client: Behaviour,
    server: Behaviour,
    session: Session,
}

impl Play {
    // The pair of two files, their names with a space between them, at the start. A file with no name counts as empty.
    pub fn new(rt: &impl Files, names: &[u8]) -> Play {
        let (client, server) = words::split_once(names).unwrap_or((names, b""));
        Play {
            client: side(rt, client),
            server: side(rt, server),
            session: Session { stand: placed(b"") },
        }
    }

    // The line is printed, and the answer to its call.
    pub fn run(&mut self, rt: &(impl Files + Print), line: &[u8]) -> io::Result<()> {
        let Some(call) = call_in(line) else {
            return Ok(());
        };
        rt.write_all(line)?;
        let answer = match call {
            Call::Pair(names) => {
                println!(rt;)?;
                *self = Play::new(rt, names);
                return Ok(());
            }
            Call::At(stand) => {
                self.session = Session { stand };
                return println!(rt;);
            }
            Call::Open => session::open(self.client, self.server),
            Call::Message(name) => self.session.message(self.client, self.server, name),
            Call::Rollback => self.session.rollback(self.client, self.server),
        };
        // "A refused session call hands back no session: the one given still holds"
        match answer {
            Ok(next) => {
                self.session = next;
                println!(rt; " -> {}", next.stand)
            }
            Err(f) => println!(rt; " -> refused {f}"),
        }
    }
}
