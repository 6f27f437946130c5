//! Numbers within a range.

ghost use Rattle.std.specs.Prelude.{◌≡◌, if◌then◌else◌};
ghost use Rattle.std.specs.Str.Parse.{digits_value};
ghost use Rattle.ss_words.specs.Words.{is_number_within};

/// The most digits that a number may have.
const MAX_DIGITS: usize = 7;

/// The number that one digit to seven write, where it is within the range; a sign is none of them. Linear in the bytes.
pub(crate) fn number_within(value: &str, least: u32, most: u32) -> Option<u32>
    ensures { result ≡ if is_number_within least most value.now then Some (digits_value 10 value.now) else None }
{
    // What `parse` takes besides digits is one plus, at the front.
    if value.len() > MAX_DIGITS || value.starts_with('+') {
        return None;
    }
    match value.parse::<u32>() {
        Ok(number) if least <= number && number <= most => Some(number),
        _ => None,
    }
}
