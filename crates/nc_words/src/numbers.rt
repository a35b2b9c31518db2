ghost use Rattle.std.specs.Prelude.{◌≡◌, IfSome, IfNone};
ghost use Rattle.std.specs.Char.{is_ascii_digit};
ghost use Rattle.std.specs.List.{list_all};
ghost use Rattle.nc_words.specs.Numbers.{IsCloudNumber, IsNoCloudNumber, IsNoNumber, IsNumber};

/// The number that a text is, where it is one below 2^64. `str::parse` alone would take a sign in front.
pub(crate) fn read_number(text: &str) -> Option<u64>
    ensures some { IfSome result (IsNumber text.now) }
    ensures none { IfNone result (IsNoNumber text.now) }
{
    if text.len() > 20 || !is_digits(text) {
        return None;
    }
    text.parse().ok()
}

/// Whether a text has no other characters than decimal digits.
fn is_digits(text: &str) -> bool
    ensures { result ≡ list_all is_ascii_digit text.now }
{
    text.bytes().all(|byte| byte.is_ascii_digit())
}

/// The cloud whose number a text is, where it is one of so many.
pub(crate) fn read_cloud(text: &str, width: u8) -> Option<u8>
    ensures some { IfSome result (IsCloudNumber width text.now) }
    ensures none { IfNone result (IsNoCloudNumber width text.now) }
{
    let number = read_number(text)?;
    if number < u64::from(width) {
        Some(number as u8)
    } else {
        None
    }
}
