//! Where a frame came from.
ghost use Rattle.std.specs.Prelude.{◌≡◌, ◌++◌, ◌∷◌, OnOk, IfOk, length};
ghost use Rattle.capture.specs.Fields.{fields_bytes};
ghost use Rattle.frame_records.specs.Frames.{short_bytes, address_fields, burst_field};
ghost use Rattle.frame_records.specs.Frames.{origin_fields};

use std::alloc::{AllocError, Global};

/// The type of the TLV with the upstream channel id.
pub(crate) const CHANNEL: u8 = 10;
/// The type of the TLV with the SID.
pub(crate) const SID: u8 = 11;
/// The type of the TLV with the burst that completed a frame.
pub(crate) const BURST: u8 = 14;
/// In that, the type of the TLV with the analyser's number of the burst.
pub(crate) const BURST_ID: u8 = 1;

/// The burst that completed a frame, as its record in the capture names it.
#[derive(Clone, Copy, Debug, PartialEq, Eq)]
pub struct FrameOrigin {
    /// The upstream channel id.
    pub channel: u32,
    pub sid: u16,
    /// The analyser's number of the burst, where it has one.
    pub burst_id: Option<u64>,
}

/// Appends a number in as few bytes as it needs, with a length before it.
fn push_short(out: &mut Vec<u8>, number: u32) -> Result<(), AllocError>
    ensures ok { OnOk result (out.new.items
        ≡ out.old.items ++ length (short_bytes number) ∷ short_bytes number) }
{
    let [a, b, c, d] = number.to_be_bytes();
    if number < 0x100 {
        out.extend_from_slice(&[1, d])
    } else if number < 0x1_0000 {
        out.extend_from_slice(&[2, c, d])
    } else if number < 0x100_0000 {
        out.extend_from_slice(&[3, b, c, d])
    } else {
        out.extend_from_slice(&[4, a, b, c, d])
    }
}

impl FrameOrigin {
    /// Appends the TLVs of channel and SID.
    fn push_address(&self, out: &mut Vec<u8>) -> Result<(), AllocError>
        ensures ok { OnOk result (out.new.items
            ≡ out.old.items ++ fields_bytes (address_fields self.now)) }
    {
        out.push(CHANNEL)?;
        push_short(out, self.channel)?;
        let [high, low] = self.sid.to_be_bytes();
        out.extend_from_slice(&[SID, 2, high, low])
    }

    /// The value of the TLV with the burst.
    fn burst_value(&self, alloc: Global) -> Result<Vec<u8>, AllocError>
        ensures ok { IfOk result (λ value. value.items ≡ (burst_field self.now).value) }
    {
        let mut value = Vec::new(alloc);
        if let Some(id) = self.burst_id {
            value.extend_from_slice(&[BURST_ID, 8])?;
            value.extend_from_slice(&id.to_be_bytes())?;
        }
        self.push_address(&mut value)?;
        Ok(value)
    }

    /// The TLVs of a packet with a frame.
    pub(crate) fn tlvs(&self, alloc: Global) -> Result<Vec<u8>, AllocError>
        ensures ok { IfOk result (λ tlvs. tlvs.items ≡ fields_bytes (origin_fields self.now)) }
    {
        let mut tlvs = Vec::new(alloc);
        self.push_address(&mut tlvs)?;
        let value = self.burst_value(alloc)?;
        tlvs.extend_from_slice(&[BURST, value.len() as u8])?;
        tlvs.extend_from_slice(&value)?;
        Ok(tlvs)
    }
}
