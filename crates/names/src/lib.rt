// A name as bytes and as one number.
#![tactic(auto)]

ghost use Rattle.std.specs.Prelude.{◌≡◌, drop, eqb, Some, None};
ghost use Rattle.names.specs.If.{if};
ghost use Rattle.names.specs.Names.{is_name_byte, name_number, is_name};

// A name has at most this many bytes.
pub const NAME_BYTES: usize = 8;

// "a–z and 0–9"
pub fn name_byte(c: u8) -> bool
    ensures { result ≡ is_name_byte c }
{
    matches!(c, b'a'..=b'z' | b'0'..=b'9')
}

// The number of the name that `b` is from `from` on, or 0.
// Kept: 0 and no Option, and a place beside the bytes and no slice, since the clause promises `name_number (drop from b)`, which is 0 where
// there is no name.
pub fn number_of(b: &[u8], from: usize) -> u64
    ensures { result ≡ name_number (drop from b.now) }
{
    let Some(name) = b.get(from..) else {
        return 0;
    };
    if NAME_BYTES < name.len() || !name.iter().all(|c| name_byte(*c)) {
        return 0;
    }
    let mut padded = [0; NAME_BYTES];
    padded[..name.len()].copy_from_slice(name);
    u64::from_be_bytes(padded)
}

// The number of the name that `b` is, if it is one.
pub fn name_of(b: &[u8]) -> Option<u64>
    ensures { result ≡ if (eqb (name_number b.now) 0) None (Some (name_number b.now)) }
{
    match number_of(b, 0) {
        0 => None,
        n => Some(n),
    }
}

// The number `n` is that of a name.
pub fn is_name(n: u64) -> bool
    ensures { result ≡ is_name n }
{
    let bytes = n.to_be_bytes();
    match bytes.iter().rposition(|c| *c != 0) {
        Some(last) => bytes[..=last].iter().all(|c| name_byte(*c)),
        None => false,
    }
}
