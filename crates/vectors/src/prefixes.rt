// How many proper prefixes of a file are refused, and how many are taken: of a good file none may be.
use std::io;
use std::rt::Files;

fn is_taken(text: &[u8]) -> bool {
    aut::read_file(text).is_ok()
}

pub fn run(rt: &(impl Files + Print), path: &[u8]) -> io::Result<()> {
    let mut buffer = [0u8; 4097];
    let text = crate::load(rt, path, &mut buffer);
    let taken = (0..text.len()).filter(|k| is_taken(&text[..*k])).count();
    rt.write_all(b"prefixes ")?;
    rt.write_all(path)?;
    println!(rt; " {} refused {taken} taken", text.len() - taken)
}
