// The functions that C calls, by the exports of host_c: numbers and byte slices only. docs/HOST.md has every number;
// include/tyttmose.h declares them.
#![tactic(auto)]

ghost use Rattle.std.specs.Prelude.{◌≡◌};
ghost use Rattle.host.specs.Numbers.{refused_number, judgement_number, session_number, session_of};
ghost use Rattle.host.specs.Calls.{Reads, Writes, Judges, Opens, Messages, RollsBack, Texts};

use behaviour::{Reason, Refusal};
use session::Session;
use verdict::Judgement;

// A refusal as an answer: its number above its place.
// Kept: no `From` for this answer and the two below, since none of their types is this crate's, and the language asks that one is.
fn refused(f: Refusal) -> u64
    ensures { result ≡ refused_number f }
{
    u64::from(f.reason.number()) * 4294967296 + u64::from(f.place)
}

// What is judged, as an answer: the cause above the run's length, or the number of stands.
fn judgement_number(judged: Judgement) -> u64
    ensures { result ≡ judgement_number judged }
{
    match judged {
        Judgement::Compliant(stands) => u64::from(stands),
        Judgement::Stuck(cause, length) => u64::from(cause) * 65536 + u64::from(length),
    }
}

fn session_of(n: u32) -> Session
    ensures { result ≡ session_of n }
{
    Session {
        stand: packing::unpack_stand(n),
    }
}

fn session_number(answer: Result<Session, Refusal>) -> u64
    ensures { result ≡ session_number answer }
{
    answer.map_or_else(refused, |z| u64::from(packing::pack_stand(z.stand)))
}

pub fn tyttmose_read(text: &[u8], value: &mut [u8]) -> u64
    ensures { Reads text.now value.old result value.new }
{
    match aut::read_file(text) {
        Ok(b) => packing::pack(b, value)
            .ok_or(Reason::LongerThanLent.at(0))
            // Kept: a cast, since the library has no `From` between the two, and no number of bytes is too large.
            .map_or_else(refused, |bytes| bytes as u64),
        Err(f) => refused(f),
    }
}

pub fn tyttmose_write(value: &[u8], text: &mut [u8]) -> u64
    ensures { Writes value.now text.old result text.new }
{
    writer::write(packing::unpack(value), text).map_or_else(refused, u64::from)
}

pub fn tyttmose_verdict(client: &[u8], server: &[u8], run: &mut [u8]) -> u64
    ensures { Judges client.now server.now run.old result run.new }
{
    let judged = verdict::judge(packing::unpack(client), packing::unpack(server), run);
    judged.map_or_else(refused, judgement_number)
}

pub fn tyttmose_open(client: &[u8], server: &[u8]) -> u64
    ensures { Opens client.now server.now result }
{
    session_number(session::open(packing::unpack(client), packing::unpack(server)))
}

pub fn tyttmose_message(client: &[u8], server: &[u8], session: u32, name: &[u8]) -> u64
    ensures { Messages client.now server.now session name.now result }
{
    let z = session_of(session);
    session_number(z.message(packing::unpack(client), packing::unpack(server), name))
}

pub fn tyttmose_rollback(client: &[u8], server: &[u8], session: u32) -> u64
    ensures { RollsBack client.now server.now session result }
{
    let z = session_of(session);
    session_number(z.rollback(packing::unpack(client), packing::unpack(server)))
}

pub fn tyttmose_text(client: &[u8], server: &[u8], text: &mut [u8]) -> u64
    ensures { Texts client.now server.now text.old result text.new }
{
    report::report(client, server, text).map_or_else(refused, u64::from)
}
