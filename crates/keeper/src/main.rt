// A line keeper. It holds one session record per open line, lends each to be updated by the calls of `lines`, and plays a
// script of calls on two lines; for every call it prints what was said and what the record then holds.
#![tactic(auto)]

ghost use Rattle.std.specs.Prelude.{◌≡◌};
ghost use Rattle.session.specs.Answers.{messaged, rolled_back};
ghost use Rattle.lines.specs.Lent.{kept_of, OpensInto};

use behaviour::{Behaviour, Refusal};
use session::Session;
use stands::{ClientState, ServerState, Stand};
use std::io;

// A line: its number, its pair and its record.
#[derive(Clone, Copy)]
struct Line {
    number: u8,
    client: Behaviour,
    server: Behaviour,
    record: Session,
}

impl Line {
    // A line of two files. What stands in its record before the opening is not looked at.
    fn new(number: u8, client: &[u8], server: &[u8]) -> Line {
        Line {
            number,
            client: aut::value_of(aut::read_file(client)),
            server: aut::value_of(aut::read_file(server)),
            record: Session {
                stand: Stand {
                    client: ClientState(9),
                    clientpoint: None,
                    server: ServerState(9),
                    serverpoint: None,
                },
            },
        }
    }

    // The line, the call, what it said and what the record then holds.
    fn tell(&self, rt: &impl Print, call: &str, outcome: Result<(), Refusal>) -> io::Result<()> {
        let number = self.number;
        let stand = self.record.stand;
        match outcome {
            Ok(()) => println!(rt; "{number} {call} granted {stand}"),
            Err(f) => println!(rt; "{number} {call} refused {} {stand}", f.reason.number()),
        }
    }

    // The record is lent for an opening, and comes back.
    fn lend_open(&mut self) -> Result<(), Refusal>
        ensures { OpensInto self.old.client self.old.server self.old.record (record { session = self.new.record; outcome = result }) }
    {
        lines::open(&mut self.record, self.client, self.server)
    }

    // The record is lent for a message, and comes back.
    fn lend_message(&mut self, name: &[u8]) -> Result<(), Refusal>
        ensures { kept_of self.old.record (messaged self.old.client self.old.server self.old.record name.now)
            ≡ record { session = self.new.record; outcome = result } }
    {
        lines::message(&mut self.record, self.client, self.server, name)
    }

    // The record is lent for a rollback, and comes back.
    fn lend_rollback(&mut self) -> Result<(), Refusal>
        ensures { kept_of self.old.record (rolled_back self.old.client self.old.server self.old.record)
            ≡ record { session = self.new.record; outcome = result } }
    {
        lines::rollback(&mut self.record, self.client, self.server)
    }

    fn open(&mut self, rt: &impl Print) -> io::Result<()> {
        let outcome = self.lend_open();
        self.tell(rt, "open", outcome)
    }

    fn say(&mut self, rt: &impl Print, name: &str) -> io::Result<()> {
        let outcome = self.lend_message(name.as_bytes());
        self.tell(rt, name, outcome)
    }

    fn back(&mut self, rt: &impl Print) -> io::Result<()> {
        let outcome = self.lend_rollback();
        self.tell(rt, "rbk", outcome)
    }
}

fn main(rt: HostRuntime) -> io::Result<()> {
    // 01's case g, with its session a, rollback, rollback.
    let mut g = Line::new(
        1,
        b"des (0,2,2)\n(0,\"ckp\",0)\n(0,\"?a\",1)\n",
        b"des (0,2,2)\n(0,\"ckp\",0)\n(0,\"!a\",1)\n",
    );
    // 01's case n.
    let mut n = Line::new(
        2,
        b"des (0,5,4)\n(0,\"ckp\",0)\n(0,\"?sea\",1)\n(0,\"?house\",2)\n(1,\"?house\",2)\n(2,\"?garden\",3)\n",
        b"des (0,6,4)\n(0,\"ckp\",0)\n(0,\"!sea\",1)\n(0,\"!house\",2)\n(1,\"ckp\",1)\n(1,\"!house\",2)\n(2,\"!garden\",3)\n",
    );
    g.open(&rt)?;
    n.open(&rt)?;
    g.say(&rt, "a")?;
    n.say(&rt, "sea")?;
    n.say(&rt, "house")?;
    g.back(&rt)?;
    g.back(&rt)?;
    n.say(&rt, "sea")?;
    n.back(&rt)?;
    n.say(&rt, "sea")?;
    n.say(&rt, "house")?;
    g.say(&rt, "A")?;
    g.say(&rt, "a")?;
    n.say(&rt, "garden")?;
    n.back(&rt)?;
    // Openings that are refused: the record keeps what it held.
    let refused = Line::new(
        2,
        b"des (0,1,2)\n(0,\"?a\",1)\n",
        b"des (0,2,2)\n(0,\"!a\",1)\n(0,\"!b\",1)\n",
    );
    n = Line {
        record: n.record,
        ..refused
    };
    n.open(&rt)?;
    g = Line {
        record: g.record,
        ..Line::new(1, b"", b"des (0,0,1)\n")
    };
    g.open(&rt)
}
