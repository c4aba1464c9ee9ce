// Bytes are cut into lines and words.
ghost use Rattle.std.specs.Prelude.{◌≡◌, option_map};
ghost use Rattle.world_runs.specs.Schedule.{cut_at};

/// The bytes up to the first one that is the end, and those after it, where there is one.
pub fn cut_at(end: u8, bytes: &[u8]) -> Option<(&[u8], &[u8])>
    ensures { option_map (λ x. (x.0.now, x.1.now)) result ≡ cut_at end bytes.now }
{
    for (i, byte) in bytes.iter().enumerate() {
        if *byte == end {
            return Some((&bytes[..i], &bytes[i + 1..]));
        }
    }
    None
}
