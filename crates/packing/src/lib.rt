// A behaviour value as bytes and a stand as one number: how they pass through C. docs/HOST.md has every number.
#![tactic(auto)]

ghost use Rattle.std.specs.Prelude.{◌≡◌, ◌*◌, leb, length, Some, None};
ghost use Rattle.names.specs.If.{if};
ghost use Rattle.behaviour.specs.Limits.{most_lines};
ghost use Rattle.packing.specs.Value.{message_bytes, value_bytes, packed_message, packed_messages, unpacked_message, unpacked_messages, unpacked, left};
ghost use Rattle.packing.specs.Numbers.{point_of, packed_stand, unpacked_stand};

use behaviour::{Behaviour, LINES, Message, Messages, STATES};
use names::NAME_BYTES;
use stands::{ClientState, ServerState, Stand};

// A message: from, to, and the bytes of the name.
const MESSAGE_BYTES: usize = 2 + NAME_BYTES;

// A value: states, count, marks, signs, messages.
pub const VALUE_BYTES: usize = 2 + 2 * STATES + LINES * MESSAGE_BYTES;

// A message as bytes, the first byte of its name first.
#[tactic(auto, using(crate::proofs::Names::name_bytes))]
fn message_bytes(m: Message) -> [u8; MESSAGE_BYTES]
    ensures { result ≡ packed_message m }
{
    let mut bytes = [0; MESSAGE_BYTES];
    bytes[0] = m.from;
    bytes[1] = m.to;
    bytes[2..].copy_from_slice(&m.name.to_be_bytes());
    bytes
}

// The message that the bytes are.
fn message_of(bytes: &[u8; MESSAGE_BYTES]) -> Message
    ensures { result ≡ unpacked_message bytes.now }
{
    let mut name = [0; NAME_BYTES];
    name.copy_from_slice(&bytes[2..]);
    Message {
        name: u64::from_be_bytes(name),
        from: bytes[0],
        to: bytes[1],
    }
}

// The messages, one behind the other.
// Kept: each place is worked out, since of what `chunks_exact_mut` leaves in `out`, as of what `iter_mut` leaves beside another iterator, a
// proof knows the length alone.
fn put_messages(a: &Messages, out: &mut [u8])
    requires { length out.old ≡ most_lines * message_bytes }
    ensures { out.new ≡ packed_messages a.now }
{
    for (i, m) in a.iter().enumerate() {
        let at = i * MESSAGE_BYTES;
        out[at..at + MESSAGE_BYTES].copy_from_slice(&message_bytes(*m));
    }
}

// The value's bytes at the front of `out`, and how many they are; nothing is written if it is too short.
#[tactic(auto, unfolding(crate::specs::Value::left))]
pub fn pack(b: Behaviour, out: &mut [u8]) -> Option<usize>
    ensures says { result ≡ if (leb value_bytes (length out.old)) (Some value_bytes) None }
    ensures leaves { out.new ≡ left b out.old }
{
    if out.len() < VALUE_BYTES {
        return None;
    }
    out[0] = b.states;
    out[1] = b.count;
    out[2..2 + STATES].copy_from_slice(&b.marks);
    out[2 + STATES..2 + 2 * STATES].copy_from_slice(&b.signs);
    put_messages(&b.messages, &mut out[2 + 2 * STATES..VALUE_BYTES]);
    Some(VALUE_BYTES)
}

// Reads the messages, one behind the other, each into its place (see `put_messages`).
fn take_messages(s: &[u8], a: &mut Messages)
    requires { length s.now ≡ most_lines * message_bytes }
    ensures { a.new ≡ unpacked_messages most_lines s.now }
{
    let (messages, _) = s.as_chunks::<MESSAGE_BYTES>();
    for (i, bytes) in messages.iter().enumerate() {
        a[i] = message_of(bytes);
    }
}

// The value that the bytes code; one of zero states if they are not of a value's length. It is filled in one place: each copy of it
// would take stack.
#[tactic(auto, unfolding(crate::specs::Value::unpacked))]
pub fn unpack(s: &[u8]) -> Behaviour
    ensures { result ≡ unpacked s.now }
{
    let mut b = aut::nothing(0);
    if s.len() == VALUE_BYTES {
        b.states = s[0];
        b.count = s[1];
        b.marks.copy_from_slice(&s[2..2 + STATES]);
        b.signs.copy_from_slice(&s[2 + STATES..2 + 2 * STATES]);
        take_messages(&s[2 + 2 * STATES..], &mut b.messages);
    }
    b
}

// The state that the byte `n` codes as a return point; 255 codes none.
// Kept: a number for none, here and in `pack_stand`, since C gets a stand as one number, and docs/HOST.md says what each of its bytes is.
fn point_of(n: u8) -> Option<u8>
    ensures { result ≡ point_of n }
{
    match n {
        255 => None,
        x => Some(x),
    }
}

// A stand as one number.
// Kept: no `From` between a stand and its number, here and below, since neither type is this crate's, and the language asks that one is.
#[tactic(auto, unfolding(crate::specs::Numbers::packed_stand))]
pub fn pack_stand(p: Stand) -> u32
    ensures { result ≡ packed_stand p }
{
    u32::from_le_bytes([
        p.client.0,
        p.clientpoint.map_or(255, |x| x.0),
        p.server.0,
        p.serverpoint.map_or(255, |y| y.0),
    ])
}

// Every number codes a stand; one that is no stand of a pair is refused with 15 by the calls that get it.
#[tactic(auto, unfolding(crate::specs::Numbers::unpacked_stand))]
pub fn unpack_stand(n: u32) -> Stand
    ensures { result ≡ unpacked_stand n }
{
    let [client, clientpoint, server, serverpoint] = n.to_le_bytes();
    Stand {
        client: ClientState(client),
        clientpoint: point_of(clientpoint).map(ClientState),
        server: ServerState(server),
        serverpoint: point_of(serverpoint).map(ServerState),
    }
}
