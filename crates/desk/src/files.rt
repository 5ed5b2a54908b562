// A file that a program's argument names.
use std::fs;

// Its bytes; none where it cannot be read, which is then said: an error would keep 120 bytes of the text.
pub fn read_named(rt: &HostRuntime, program: &str, name: &str) -> anyhow::Result<Option<Vec<u8>>> {
    match fs::read(rt, name) {
        Ok(bytes) => Ok(Some(bytes)),
        Err(why) => {
            eprintln!(rt; "{program}: {name} cannot be read: {why}")?;
            Ok(None)
        }
    }
}
