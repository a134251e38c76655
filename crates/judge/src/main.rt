// The verdict program: the report on the two files that its arguments name. All of it is worked out in `report`.
#![tactic(auto)]

ghost use Rattle.std.specs.Prelude.{◌≤◌, length};

use std::io;
use std::rt::Env;

// A path has fewer bytes than this.
const PATH: usize = 4096;

// A run has fewer than 12,100 steps, and the line of a step at most 26 bytes: every report fits.
const TEXT: usize = 320000;

// The argument `i`, read into `name`. One that is missing or that does not fit counts as empty.
fn argument<'a>(rt: &impl Env, i: usize, name: &'a mut [u8]) -> &'a [u8]
    ensures { length result.now ≤ length name.old }
{
    let n = rt.arg(i, name).unwrap_or(0);
    &name[..n]
}

fn main(rt: HostRuntime) -> io::Result<()> {
    let mut first = [0u8; PATH];
    let client = argument(&rt, 1, &mut first);
    let mut second = [0u8; PATH];
    let server = argument(&rt, 2, &mut second);
    let mut text = [0u8; TEXT];
    let n = files::judge(&rt, client, server, &mut text);
    rt.write_all(&text[..n])
}
