//! Waiting at the mouth of a mailbox.
use crate::signals::MailboxSignals;
use crate::waiting::Waiting;
use std::sync::Wait;

/// The waits of the one who takes from a mailbox. It tells those who wait for room of each take:
/// for anything may be waited for between two takes, as a tap or a check that is held up does.
#[derive(Drop)]
pub struct MouthWait<'a> {
    mailbox: &'a MailboxSignals,
    waiting: Waiting<'a>,
}

impl<'a> MouthWait<'a> {
    /// Nothing was taken yet.
    pub fn at(mailbox: &'a MailboxSignals) -> MouthWait<'a> {
        MouthWait {
            mailbox,
            waiting: Waiting::on(&mailbox.posted),
        }
    }

    /// To be called after each take that gave an entry.
    pub fn took(&mut self) {
        self.waiting.end();
        self.mailbox.taken.notify_all();
    }

    /// To be called after each take that found nothing. It waits as [`Waiting::pause`] does.
    pub fn pause<R: Wait>(&mut self, rt: &R) {
        self.waiting.pause(rt);
    }
}
