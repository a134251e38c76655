// Sessions by value of pairs that may be joined. A call takes a session and the pair, and hands the next session back.
#![tactic(auto)]

ghost use Rattle.std.specs.Prelude.{◌≡◌};
ghost use Rattle.session.specs.Answers.{fault, stepped, messaged, rolled_back};
ghost use Rattle.session.specs.Opening.{not_opened, Opens};

use behaviour::{Behaviour, Reason, Refusal};
use stands::{ClientState, ServerState, Stand};
use verdict::Judgement;

// Where both sides stand, with their return points: four small numbers.
#[derive(Clone, Copy)]
pub struct Session {
    pub stand: Stand,
}

// Does some accepted file give each of the two, and is the stand one of theirs?
// Kept: client and server by value, one by one, here and below, since `fault`, `messaged`, `rolled_back` and `Opens` name each.
#[tactic(auto, unfolding(crate::specs::Answers::fault))]
fn check(client: Behaviour, server: Behaviour, p: Stand) -> Result<(), Reason>
    ensures { result ≡ fault client server p }
{
    if !behaviour::is_sound(&client) || !behaviour::is_sound(&server) {
        return Err(Reason::NoFileGivesIt);
    }
    if !steps::is_stand(client, server, p) {
        return Err(Reason::NoStand);
    }
    Ok(())
}

// A verdict's refusal, to an opening: 14 where the run did not fit.
fn refused_open(f: Refusal) -> Refusal
    ensures { result ≡ not_opened f }
{
    match f.reason {
        Reason::LongerThanLent => Reason::NotCompliant.into(),
        _ => f,
    }
}

// The start, if the pair may be joined: both at state 0, both return points none.
#[tactic(auto, unfolding(crate::specs::Opening::Opens))]
pub fn open(client: Behaviour, server: Behaviour) -> Result<Session, Refusal>
    ensures { Opens client server result }
{
    let mut run: [u8; 1] = [0; 1];
    match verdict::judge(client, server, &mut run) {
        Ok(Judgement::Compliant(_)) => Ok(Session {
            stand: Stand {
                client: ClientState(0),
                clientpoint: None,
                server: ServerState(0),
                serverpoint: None,
            },
        }),
        Ok(Judgement::Stuck(_, _)) => Err(Reason::NotCompliant.into()),
        Err(f) => Err(refused_open(f)),
    }
}

impl Session {
    // Both sides move by the message of this name.
    #[tactic(auto, unfolding(crate::specs::Answers::messaged, crate::specs::Answers::named))]
    pub fn message(
        self,
        client: Behaviour,
        server: Behaviour,
        name: &[u8],
    ) -> Result<Session, Refusal>
        ensures { result ≡ messaged client server self name.now }
    {
        check(client, server, self.stand)?;
        let n = names::name_of(name).ok_or(Reason::MessageNotPossible)?;
        let step = steps::message_step(client, server, self.stand, n);
        let stand = step.ok_or(Reason::MessageNotPossible)?;
        Ok(Session { stand })
    }

    // Both sides go back to their return points, which become none.
    #[tactic(auto, unfolding(crate::specs::Answers::rolled_back))]
    pub fn rollback(self, client: Behaviour, server: Behaviour) -> Result<Session, Refusal>
        ensures { result ≡ rolled_back client server self }
    {
        check(client, server, self.stand)?;
        let stand = steps::rollback_step(self.stand).ok_or(Reason::RollbackNotPossible)?;
        Ok(Session { stand })
    }
}
