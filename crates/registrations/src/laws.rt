//! What follows from the definitions alone.
ghost use Rattle.std.specs.Prelude.{◌≡◌, ◌↔◌, ◌≤◌, ◌<◌, ℕ, List, Some, Ok, length, map, flat_map};
ghost use Rattle.std.specs.Prelude.{slice_index};
ghost use Rattle.capture.specs.Fields.{Field, fields_bytes};
ghost use Rattle.registrations.specs.Frames.{IsMessageFrame, IsManagement};
ghost use Rattle.registrations.specs.Message.{ManagementParts, message_in, management_in};
ghost use Rattle.registrations.specs.Part.{PartParts};
ghost use Rattle.registrations.specs.Values.{fields_of};
ghost use Rattle.registrations.specs.Joining.{AreInTurn, GivesAtLast, WholeParts, longest_message};
ghost use Rattle.registrations.specs.UnderWay.{TakenPart, Joins, TakesAll, taken_of, AreShort};
ghost use Rattle.registrations.specs.declared.part.MessageName.{MessageName};
ghost use Rattle.registrations.specs.declared.unfinished.Unfinished.{Unfinished};

/// A message is found in a frame exactly if the frame's bytes are those of its grammar with that
/// message.
pub fn frames_spell_their_message()
    ensures { (frame message : List ℕ) → ((i : ℕ) → slice_index frame i < 256)
        → (message_in frame ≡ Ok message) ↔ IsMessageFrame frame message }
{}

/// A message's modem, type and body are read exactly if the message's bytes are those of its
/// grammar with them.
pub fn messages_spell_their_parts()
    ensures { (message : List ℕ) (parts : ManagementParts) → ((i : ℕ) → slice_index message i < 256)
        → (management_in message ≡ Ok parts) ↔ IsManagement message parts }
{}

/// The TLVs that are found in some bytes are those of which they are the bytes, end to end.
pub fn tlvs_that_are_found_spell_the_bytes()
    ensures { (bytes : List ℕ) (fields : List Field)
        → (fields_of bytes ≡ Some fields) ↔ (bytes ≡ fields_bytes fields) }
{}

/// Parts 1 to the last one of a message are joined, whatever of other modems is taken between them
/// and whatever was under way before: nothing is given before the last one, and with it the
/// message, whose TLVs are those of the parts end to end.
pub fn parts_in_turn_are_joined()
    ensures { (old new : Unfinished) (taken : List TakenPart) (modem of : ℕ) (message : MessageName)
        → TakesAll old taken new → 1 ≤ of
        → AreInTurn modem message of 1 (map (λ one. one.part) (taken_of modem taken))
        → GivesAtLast (record {
          modem = modem;
          message = message;
          tlvs = flat_map (λ one. one.part.tlvs) (taken_of modem taken);
        }) (map (λ one. one.given) (taken_of modem taken)) }
{}

/// Whatever parts are taken, no message that is under way becomes too long, and none is given that
/// is.
pub fn messages_stay_short()
    ensures under_way { (old new : Unfinished) (taken : List TakenPart)
        → TakesAll old taken new → AreShort old → AreShort new }
    ensures given { (old new : Unfinished) (part : PartParts) (whole : WholeParts)
        → Joins old new part (Some whole) → length whole.tlvs ≤ longest_message }
{}
