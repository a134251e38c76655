// The exports for C: each only calls host's function of its name. include/tyttmose.h declares them.
#![tactic(auto)]

ghost use Rattle.host.specs.Calls.{Reads, Writes, Judges, Opens, Messages, RollsBack, Texts};

#[unsafe(no_mangle)]
pub extern "C" fn tyttmose_read(text: &[u8], value: &mut [u8]) -> u64
    ensures { Reads text.now value.old result value.new }
{
    host::tyttmose_read(text, value)
}

#[unsafe(no_mangle)]
pub extern "C" fn tyttmose_write(value: &[u8], text: &mut [u8]) -> u64
    ensures { Writes value.now text.old result text.new }
{
    host::tyttmose_write(value, text)
}

#[unsafe(no_mangle)]
pub extern "C" fn tyttmose_verdict(client: &[u8], server: &[u8], run: &mut [u8]) -> u64
    ensures { Judges client.now server.now run.old result run.new }
{
    host::tyttmose_verdict(client, server, run)
}

#[unsafe(no_mangle)]
pub extern "C" fn tyttmose_open(client: &[u8], server: &[u8]) -> u64
    ensures { Opens client.now server.now result }
{
    host::tyttmose_open(client, server)
}

#[unsafe(no_mangle)]
pub extern "C" fn tyttmose_message(client: &[u8], server: &[u8], session: u32, name: &[u8]) -> u64
    ensures { Messages client.now server.now session name.now result }
{
    host::tyttmose_message(client, server, session, name)
}

#[unsafe(no_mangle)]
pub extern "C" fn tyttmose_rollback(client: &[u8], server: &[u8], session: u32) -> u64
    ensures { RollsBack client.now server.now session result }
{
    host::tyttmose_rollback(client, server, session)
}

#[unsafe(no_mangle)]
pub extern "C" fn tyttmose_text(client: &[u8], server: &[u8], text: &mut [u8]) -> u64
    ensures { Texts client.now server.now text.old result text.new }
{
    host::tyttmose_text(client, server, text)
}
