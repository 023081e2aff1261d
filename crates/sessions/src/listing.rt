ghost use Rattle.std.specs.Prelude.{◌≡◌, ◌≢◌, ◌↔◌, ◌+◌, ◌-◌, ◌*◌, ◌/◌, IsNone, IfSome, take, drop};

/// The characters of a line of a listing, with its newline.
pub const LINE: usize = 16;

/// The place of the first byte in which two listings differ.
pub fn first_difference(played: &[u8], expected: &[u8]) -> Option<usize>
    ensures agree { IsNone result ↔ (played.now ≡ expected.now) }
    ensures same_before { IfSome result (λ place. take place played.now ≡ take place expected.now) }
    ensures differ_there { IfSome result (λ place. take (place + 1) played.now ≢ take (place + 1) expected.now) }
{
    if played == expected {
        return None;
    }
    for (place, byte) in expected.iter().enumerate() {
        if played.get(place) != Some(byte) {
            return Some(place);
        }
    }
    Some(expected.len())
}

/// The line that has the place, without its newline: empty past the end.
pub fn line_at(listing: &[u8], place: usize) -> &[u8]
    ensures { result.now ≡ take (LINE - 1) (drop (place / LINE * LINE) listing.now) }
{
    let first = place / LINE * LINE;
    let rest = listing.get(first..).unwrap_or(&[]);
    rest.get(..LINE - 1).unwrap_or(rest)
}
