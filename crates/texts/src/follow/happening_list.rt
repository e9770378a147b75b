//! What happened, kept in order.
ghost use Rattle.std.specs.Prelude.{◌≡◌, [], ◌∷◌, ◌++◌, flat_map, true, IfOk, OnOk, OnErr};
ghost use Rattle.text_lines.specs.Putting.{Puts};
ghost use Rattle.texts.specs.Follow.{lines_told};
ghost use Rattle.texts.specs.Inside.Added.{HasAdded};

use super::happening::Happening;
use super::lines::put_happened;
use super::settings::FollowSettings;
use consumer::{Consumer, Given};
use docsis_wire::Bytes;
use lane::Request;
use std::alloc::{AllocError, Global};
use text_lines::PutText;

/// Keeps what happens, in order, and what a receiver gives with it. It is whole as long as
/// everything was kept.
#[derive(Debug, Drop)]
pub struct HappeningList {
    happened: Vec<Happening>,
    whole: bool,
}

impl HappeningList {
    /// Nothing yet.
    pub fn new(alloc: Global) -> HappeningList
        ensures none { result.happened.items ≡ [] }
        ensures whole { result.whole ≡ true }
    {
        HappeningList {
            happened: Vec::new(alloc),
            whole: true,
        }
    }

    /// Keeps one thing more.
    pub fn add(&mut self, one: Happening)
        ensures { HasAdded self.old (one ∷ []) self.new }
    {
        if self.whole {
            self.whole = self.happened.push(one).is_ok();
        }
    }

    /// Puts the lines that these settings ask for of all that happened, which was by the line with
    /// this number, and has none of it any more. Where it isn't whole nothing is put, and nothing
    /// changes.
    pub fn put<O: PutText>(
        &mut self,
        line: u64,
        settings: &FollowSettings,
        out: &mut O,
    ) -> Result<(), AllocError>
        ensures put { OnOk result (Puts O.after out.old
            (flat_map (lines_told settings.now line) self.old.happened.items) out.new) }
        ensures was_whole { OnOk result (self.old.whole ≡ true) }
        ensures none { OnOk result (self.new.happened.items ≡ []) }
        ensures whole { OnOk result (self.new.whole ≡ true) }
        ensures unchanged { OnErr result ((self.new ≡ self.old) × (out.new ≡ out.old)) }
    {
        if !self.whole {
            return Err(AllocError);
        }
        put_happened(out, line, settings, &self.happened);
        self.happened.clear();
        Ok(())
    }

    /// All that happened, in order. Otherwise it reports that an allocation failed.
    pub fn finish(self) -> Result<Vec<Happening>, AllocError>
        ensures whole { IfOk result (λ happened. self.whole ≡ true) }
        ensures happened { IfOk result (λ happened. happened.items ≡ self.happened.items) }
    {
        if !self.whole {
            return Err(AllocError);
        }
        Ok(self.happened)
    }
}

impl Consumer for HappeningList {
    ghost use Rattle.texts.specs.Inside.Added.{HasKept};

    ghost after = { HasKept };

    fn frame(&mut self, flow: usize, frame: Bytes) {
        self.add(Happening::Gave(Given::Frame { flow, frame }));
    }

    fn request(&mut self, request: Request) {
        self.add(Happening::Gave(Given::Asked(request)));
    }
}
