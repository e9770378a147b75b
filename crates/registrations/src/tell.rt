//! Going through the TLVs of a message, of a flow and of a cluster.
ghost use Rattle.std.specs.Prelude.{◌≡◌, Option, List, OnOk, IfErr};
ghost use Rattle.capture.specs.Fields.{Field};
ghost use Rattle.capture.specs.Seen.{field};
ghost use Rattle.registrations.specs.declared.told.Told.{Told};
ghost use Rattle.registrations.specs.Told.{told_in, in_message, in_flow, in_cluster, sids_in};
ghost use Rattle.registrations.specs.Told.{cluster_in, channel_in, action_of, flow_in, Refuses};
ghost use Rattle.registrations.specs.Told.{IsTold};

use crate::told::{Action, ChannelSid, Told, ToldFault, UpstreamFlow};
use crate::values::{byte_at, long_at, long_if_there, word_at, word_if_there};
use capture::{Tlv, split_tlv};

/// The type of the TLV with an upstream flow.
const UPSTREAM_FLOW: u8 = 24;
/// The type of the TLV with the SIDs of a flow.
const FLOW_SIDS: u8 = 47;
/// The type of the TLV with a cluster among those of a flow, and with a channel among those of a
/// cluster. The one of type 1 names the flow, the cluster or the channel.
const WITHIN: u8 = 2;

/// What is told by TLVs, one after another.
pub(crate) trait TakeTlv {
    // What a TLV tells.
    ghost tells: { Self → Field → Option (List Told) };

    /// Appends what a TLV tells.
    fn take(&self, told: &mut Vec<Told>, tlv: Tlv<'_>) -> Result<(), ToldFault>
        ensures told { OnOk result
            (IsTold (tells self.now (field tlv.entry)) told.old.items told.new.items) }
        ensures fault { IfErr result (Refuses (tells self.now (field tlv.entry))) };
}

/// Appends what TLVs tell, if they are whole and each tells something.
pub(crate) fn take_tlvs<T: TakeTlv>(
    taker: &T,
    told: &mut Vec<Told>,
    tlvs: &[u8],
) -> Result<(), ToldFault>
    ensures told { OnOk result
        (IsTold (told_in (T.tells taker.now) tlvs.now) told.old.items told.new.items) }
    ensures fault { IfErr result (Refuses (told_in (T.tells taker.now) tlvs.now)) }
{
    let mut rest = tlvs;
    while let Some((tlv, after)) = split_tlv(rest) {
        taker.take(told, tlv)?;
        rest = after;
    }
    if rest.is_empty() {
        Ok(())
    } else {
        Err(ToldFault::Malformed)
    }
}

/// The TLVs of a message.
#[derive(Clone, Copy)]
pub(crate) struct OfMessage;

impl TakeTlv for OfMessage {
    ghost tells = { λ _ one. in_message one };

    fn take(&self, told: &mut Vec<Told>, tlv: Tlv<'_>) -> Result<(), ToldFault> {
        match tlv.kind {
            UPSTREAM_FLOW => {
                let Some(flow) = flow_in(tlv.value) else {
                    return Err(ToldFault::Malformed);
                };
                Ok(told.push(Told::Flow(flow))?)
            }
            FLOW_SIDS => sids_in(told, tlv.value),
            _ => Ok(()),
        }
    }
}

/// The TLVs in one with the SIDs of this flow.
#[derive(Clone, Copy)]
struct OfFlow {
    sfid: u32,
}

impl TakeTlv for OfFlow {
    ghost tells = { λ of one. in_flow of.sfid one };

    fn take(&self, told: &mut Vec<Told>, tlv: Tlv<'_>) -> Result<(), ToldFault> {
        match tlv.kind {
            WITHIN => cluster_in(self.sfid, told, tlv.value),
            _ => Ok(()),
        }
    }
}

/// The TLVs in one with this cluster.
#[derive(Clone, Copy)]
struct OfCluster {
    sfid: u32,
    cluster: u8,
}

impl TakeTlv for OfCluster {
    ghost tells = { λ of one. in_cluster of.sfid of.cluster one };

    fn take(&self, told: &mut Vec<Told>, tlv: Tlv<'_>) -> Result<(), ToldFault> {
        match tlv.kind {
            WITHIN => {
                let Some(sid) = channel_in(self.sfid, self.cluster, tlv.value) else {
                    return Err(ToldFault::Malformed);
                };
                Ok(told.push(Told::Sid(sid))?)
            }
            _ => Ok(()),
        }
    }
}

/// Appends what a TLV with the SIDs of a flow tells.
fn sids_in(told: &mut Vec<Told>, value: &[u8]) -> Result<(), ToldFault>
    ensures told { OnOk result (IsTold (sids_in value.now) told.old.items told.new.items) }
    ensures fault { IfErr result (Refuses (sids_in value.now)) }
{
    let Some(sfid) = long_at(value, 1) else {
        return Err(ToldFault::Malformed);
    };
    take_tlvs(&OfFlow { sfid }, told, value)
}

/// Appends what a TLV with a cluster of this flow tells.
fn cluster_in(sfid: u32, told: &mut Vec<Told>, value: &[u8]) -> Result<(), ToldFault>
    ensures told { OnOk result
        (IsTold (cluster_in sfid value.now) told.old.items told.new.items) }
    ensures fault { IfErr result (Refuses (cluster_in sfid value.now)) }
{
    let Some(cluster) = byte_at(value, 1) else {
        return Err(ToldFault::Malformed);
    };
    take_tlvs(&OfCluster { sfid, cluster }, told, value)
}

/// What an action is.
fn action_of(action: u8) -> Option<Action>
    ensures { result ≡ action_of action }
{
    match action {
        1 => Some(Action::Add),
        2 => Some(Action::Delete),
        _ => None,
    }
}

/// The SID of a channel of this flow's cluster.
fn channel_in(sfid: u32, cluster: u8, value: &[u8]) -> Option<ChannelSid>
    ensures { result ≡ channel_in sfid cluster value.now }
{
    Some(ChannelSid {
        sfid,
        cluster,
        channel: byte_at(value, 1)?,
        sid: word_at(value, 2)?,
        action: action_of(byte_at(value, 3)?)?,
    })
}

/// What a TLV with an upstream flow says of it.
fn flow_in(value: &[u8]) -> Option<UpstreamFlow>
    ensures { result ≡ flow_in value.now }
{
    Some(UpstreamFlow {
        reference: word_if_there(value, 1)?,
        sfid: long_if_there(value, 2)?,
        sid: word_if_there(value, 3)?,
        policy: long_if_there(value, 16)?,
    })
}
