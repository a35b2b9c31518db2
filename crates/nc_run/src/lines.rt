//! The lines of a text.
ghost use Rattle.std.specs.Prelude.{◌≡◌, ◌==◌, ◌<◌, ◌≤◌, ◌∷◌, length};
ghost use Rattle.std.specs.List.{position};
ghost use Rattle.nc_run.specs.Items.{lines_of};

/// The first line of a text, without its line feed, and what follows it.
pub(crate) fn first_line(text: &[u8]) -> (&[u8], &[u8])
    requires some { 0 < length text.now }
    ensures lines { lines_of text.now ≡ result.0.now ∷ lines_of result.1.now }
    ensures line { length result.0.now ≤ length text.now }
    ensures rest { length result.1.now < length text.now }
{
    match line_feed(text) {
        Some(at) => {
            let (line, rest) = text.split_at(at);
            let (_, after) = rest.split_at(1);
            (line, after)
        }
        None => (text, &[]),
    }
}

/// Where the first line feed of a text stands.
fn line_feed(text: &[u8]) -> Option<usize>
    ensures { result ≡ position (λ b. b == 10) text.now }
{
    text.iter().position(|byte| *byte == b'\n')
}
