use crate::listing::{LINE, first_difference, line_at};
use crate::piles::play_over_caps;
use std::rt::Files;
use std::{fs, io, str};

/// Plays the script of a name twice, as the bench does and over two caps through the library, and prints of each listing
/// whether it is the stored one. The second is played and told also where the first differs.
pub(crate) fn agrees<R: Files + Print + AllocGlobal>(rt: &R, name: &str) -> io::Result<bool> {
    let script = stored(rt, name, "script")?;
    let expected = stored(rt, name, "listing")?;
    let played = script::play::listing_of(rt.alloc(), &script)?;
    let at_bench = compare(rt, name, "at the bench", &played, &expected)?;
    let Ok(over_caps) = play_over_caps(rt.alloc(), &script) else {
        println!(rt; "{name} over two caps: not played")?;
        return Ok(false);
    };
    let over_caps = compare(rt, name, "over two caps", &over_caps, &expected)?;
    Ok(at_bench && over_caps)
}

/// Prints whether a listing is the stored one, or else where it differs first.
fn compare<R: Print>(
    rt: &R,
    name: &str,
    how: &str,
    played: &[u8],
    expected: &[u8],
) -> io::Result<bool> {
    match first_difference(played, expected) {
        None => {
            let records = played.len() / LINE;
            println!(rt; "{name} {how}: {records} records, the listing agrees")?;
            Ok(true)
        }
        Some(place) => {
            let line = place / LINE;
            println!(rt; "{name} {how}: the listing differs at line {}", line + 1)?;
            println!(rt; "  expected {}", text(line_at(expected, place)))?;
            println!(rt; "  found    {}", text(line_at(played, place)))?;
            Ok(false)
        }
    }
}

fn stored<R: Files + AllocGlobal>(rt: &R, name: &str, kind: &str) -> io::Result<Vec<u8>> {
    let path = format!(in rt.alloc(); "{name}.{kind}")?;
    fs::read(rt, path.as_str())
}

fn text(line: &[u8]) -> &str {
    if line.is_empty() {
        return "nothing";
    }
    str::from_utf8(line).unwrap_or("bytes that are no text")
}
