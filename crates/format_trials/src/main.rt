// Opens agreements, images and DETRAF files and prints what is answered. Each line of standard input is a format
// (agreement, line, day or detraf), a blank, and a case: `= HEX` is these bytes, which later lines refer to; `AT HEX` is
// the last such bytes with others in their place, from AT on.
#![tactic(auto)]

mod detraf_files;
mod image_files;
mod text;

use anyhow::anyhow;
use ledger::day::DayRow;
use ledger::line::LineRow;
use probes::{agreements, pairs};
use std::io::{BufRead, BufReader};

fn show(rt: &HostRuntime, format: &str, bytes: &mut [u8]) -> anyhow::Result<()> {
    match format {
        "agreement" => agreements::open(rt, bytes),
        "line" => image_files::open::<LineRow>(rt, bytes),
        "day" => image_files::open::<DayRow>(rt, bytes),
        "detraf" => detraf_files::read(rt, bytes),
        _ => Err(anyhow!("no such format")),
    }
}

// The bytes with others in their place, from a place on, as far as the bytes go.
fn damaged(
    heap: std::alloc::Global,
    whole: &[u8],
    at: usize,
    new: &[u8],
) -> anyhow::Result<Vec<u8>> {
    let mut bytes = whole.to_vec(heap)?;
    for (byte, put) in bytes.iter_mut().skip(at).zip(new) {
        *byte = *put;
    }
    Ok(bytes)
}

fn main(rt: HostRuntime) -> anyhow::Result<()> {
    let heap = rt.alloc();
    let mut whole = Vec::new(heap);
    for line in BufReader::new(heap, rt.stdin())?.lines(heap) {
        let line = line?;
        let mut words = line.split(' ');
        let (Some(format), Some(place), Some(text)) = (words.next(), words.next(), words.next())
        else {
            return Err(anyhow!("a line has a format, a place and bytes"));
        };
        let new = pairs::decode(heap, text.as_bytes())?;
        if place == "=" {
            whole = new.to_vec(heap)?;
        }
        let at = place.parse::<usize>().unwrap_or(0);
        let mut bytes = damaged(heap, &whole, at, &new)?;
        show(&rt, format, &mut bytes)?;
    }
    detraf_files::read_wide(&rt)
}
