//! What the lane workers and the decision worker post.
ghost use Rattle.flow_records.specs.Events.{IsTakable};
ghost use Rattle.workers.specs.Inside.Takable.{takable-prop};

use flow_records::Event;

/// An event that its flow can take, if there is such a flow: a segment that arrives is ready, and a
/// number up to which segments are lost is below 8192.
#[derive(Drop)]
pub struct Item {
    /// Who sends it: the channel on which its segment comes, or, of a decision, the number of
    /// channels.
    pub sender: u8,
    pub event: Event,
    ghost takable: { IsTakable event } by { takable-prop event },
}
