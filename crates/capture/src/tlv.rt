//! TLVs, one after another: a type of one byte, a length of one byte, and a value of that length.
ghost use Rattle.std.specs.Prelude.{◌≡◌, ◌++◌, ◌↔◌, ℕ, List, IsTrue, IsSome, IfSome, option_map};

/// A TLV. Its value may be empty, and has at most 255 bytes.
#[derive(Clone, Copy, Debug, PartialEq, Eq)]
pub struct Tlv<'a> {
    /// The type.
    pub kind: u8,
    pub value: &'a [u8],
}

ghost use Rattle.capture.specs.Fields.{Field, field_bytes, fields_bytes, AreFields, last_value};
ghost use Rattle.capture.specs.Inside.Newer.{value_with};
ghost use Rattle.capture.specs.Seen.{field, value_seen};

/// The TLV at the front, and the bytes after it. `None` where no whole TLV stands at the front: the
/// bytes end in its type, its length or its value.
pub fn split_tlv(bytes: &[u8]) -> Option<(Tlv<'_>, &[u8])>
    ensures found { IfSome result (λ split. bytes.now ≡ field_bytes (field split.0) ++ split.1.now) }
    ensures only { (any : Field) (more : List ℕ) → bytes.now ≡ field_bytes any ++ more
        → IsSome result }
{
    let (head, rest) = bytes.split_first_chunk::<2>()?;
    let [kind, length] = *head;
    let (value, rest) = rest.split_at_checked(usize::from(length))?;
    Some((Tlv { kind, value }, rest))
}

/// Whether the bytes are whole TLVs to the end.
pub fn are_tlvs(bytes: &[u8]) -> bool
    ensures { IsTrue result ↔ AreFields bytes.now }
{
    let mut rest = bytes;
    while let Some((_, after)) = split_tlv(rest) {
        rest = after;
    }
    rest.is_empty()
}

/// The last value of a type, once this TLV was passed too.
fn newer<'a>(last: Option<&'a [u8]>, kind: u8, tlv: Tlv<'a>) -> Option<&'a [u8]>
    ensures { value_seen result ≡ value_with kind (field tlv.entry) (value_seen last.entry) }
{
    if tlv.kind == kind {
        Some(tlv.value)
    } else {
        last
    }
}

/// The value of the last TLV of a type. Where a type stands twice the last one counts, as in
/// Wireshark's reader. TLVs within a value are not looked at.
pub fn last_value(tlvs: &[u8], kind: u8) -> Option<&[u8]>
    ensures { (fields : List Field) → tlvs.now ≡ fields_bytes fields
        → option_map (λ value. value.now) result ≡ last_value kind fields }
{
    let mut last = None;
    let mut rest = tlvs;
    while let Some((tlv, after)) = split_tlv(rest) {
        last = newer(last, kind, tlv);
        rest = after;
    }
    last
}
