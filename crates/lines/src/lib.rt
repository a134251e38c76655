// The line keeper's calls: one session record per open line, lent to be updated. Thin walks over the calls by value.
#![tactic(auto)]

ghost use Rattle.std.specs.Prelude.{◌≡◌};
ghost use Rattle.session.specs.Answers.{messaged, rolled_back};
ghost use Rattle.lines.specs.Lent.{kept_of, OpensInto};

use behaviour::{Behaviour, Refusal};
use session::Session;

// The next session if the call is granted; else the record keeps its values.
// Kept: client and server by value, one by one, below, since `messaged`, `rolled_back` and `OpensInto` name each.
fn keep(line: &mut Session, answer: Result<Session, Refusal>) -> Result<(), Refusal>
    ensures { kept_of line.old answer ≡ record { session = line.new; outcome = result } }
{
    *line = answer?;
    Ok(())
}

// The line stands at the start, if the pair may be joined.
pub fn open(line: &mut Session, client: Behaviour, server: Behaviour) -> Result<(), Refusal>
    ensures { OpensInto client server line.old (record { session = line.new; outcome = result }) }
{
    keep(line, session::open(client, server))
}

// Both sides of the line move by the message of this name.
pub fn message(
    line: &mut Session,
    client: Behaviour,
    server: Behaviour,
    name: &[u8],
) -> Result<(), Refusal>
    ensures { kept_of line.old (messaged client server line.old name.now)
        ≡ record { session = line.new; outcome = result } }
{
    keep(line, line.message(client, server, name))
}

// Both sides of the line go back to their return points, which become none.
pub fn rollback(line: &mut Session, client: Behaviour, server: Behaviour) -> Result<(), Refusal>
    ensures { kept_of line.old (rolled_back client server line.old)
        ≡ record { session = line.new; outcome = result } }
{
    keep(line, line.rollback(client, server))
}
