//! The priorities of pin settings.

ghost use Rattle.std.specs.Prelude.{◌≡◌, ◌≤◌};
ghost use Rattle.ctl_store.specs.Priority.{number_up_to, priority_of};

// The number of one or more digits, where it is not 0 and not above the greatest.
#[tactic(auto, using(crate::proofs::PrefsLemmas::one_digit))]
fn number_up_to(greatest: u32, digits: &[u8]) -> Option<u32>
    requires { greatest ≤ 32768 }
    ensures { result ≡ number_up_to greatest digits.now }
{
    let mut number: u32 = 0;
    let mut left = digits;
    while let Some((byte, rest)) = left.split_first() {
        if !byte.is_ascii_digit() {
            return None;
        }
        number = number * 10 + u32::from(*byte - b'0');
        if number > greatest {
            return None;
        }
        left = rest;
    }
    if number == 0 { None } else { Some(number) }
}

/// Reads a priority: a number from -32768 to 32767 that is not 0, in decimal digits with or without a minus before
/// them. None where the text is none.
pub fn read_priority(text: &[u8]) -> Option<i16>
    ensures { result ≡ priority_of text.now }
{
    let (first, digits) = text.split_first()?;
    if *first == b'-' {
        let number = number_up_to(32768, digits)?;
        Some((-(number as i32)) as i16)
    } else {
        let number = number_up_to(32767, text)?;
        Some(number as i16)
    }
}
