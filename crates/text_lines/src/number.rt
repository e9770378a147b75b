//! Number fields.
ghost use Rattle.std.specs.Prelude.{◌≡◌, IfSome};
ghost use Rattle.text_lines.specs.Number.{IsNumber, IsNoNumber, IsNumberIn};
ghost use Rattle.text_lines.specs.Inside.LineFault.{IsNoNumberIn};

/// The number that a field spells in decimal digits, leading zeros or not, if it is at most `most`.
/// A field without digits, with any other byte, such as a sign, or with a greater number is none.
pub fn read_number(field: &[u8], most: u32) -> Option<u32>
    ensures number { IfSome result (IsNumber field.now most) }
    ensures none { result ≡ None → IsNoNumber field.now most }
{
    if field.is_empty() {
        return None;
    }
    let mut number = 0u64;
    for byte in field {
        let Some(digit) = char::from(*byte).to_digit(10) else {
            return None;
        };
        number = number * 10 + u64::from(digit);
        if number > u64::from(most) {
            return None;
        }
    }
    Some(number as u32)
}

/// The number that a field spells, if it lies from `least` to `most`.
pub fn read_number_in(field: &[u8], least: u32, most: u32) -> Option<u32>
    ensures number { IfSome result (IsNumberIn field.now least most) }
    ensures none { result ≡ None → IsNoNumberIn field.now least most }
{
    read_number(field, most).filter(|number| *number >= least)
}
